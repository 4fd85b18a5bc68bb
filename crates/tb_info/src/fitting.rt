ghost use Rattle.std.specs.Prelude.{◌≡◌, ◌↔◌, ◌<◌, ◌^◌, IsTrue};
ghost use Rattle.std.specs.Cmp.{IsTotalOrder, on_total};
ghost use Rattle.std.specs.Cmp.Lexicographic.{nat_list_cmp_total};
ghost use Rattle.std.specs.List.{AllByRecursion};
ghost use Rattle.std.specs.List.Sorted.{IsStrictlySortedBy};
ghost use Rattle.std.specs.Ordering.{is_lt};
ghost use Rattle.std.specs.declared.cmp.Ordering.{Ordering};
ghost use Rattle.tb_text.proofs.Order.{finding_total};
ghost use Rattle.tb_text.specs.Bytes.{bytes_cmp};
ghost use Rattle.tb_text.specs.Findings.{finding_cmp};
ghost use Rattle.tb_face.specs.Infos.{IsText, IsPath, IsDigest, IsSignature, IsTarget, IsEdge, IsFinding, IsReach, IsEntry, AreRows, WellFormed, edge_cmp, reach_cmp, entry_cmp};
ghost use Rattle.tb_info.specs.Ascending.{neighbours_ascend};

use tb_face::{Entry, Info, Reach};
use tb_text::{Digest, Edge, Finding, List, Name, Path, Target};

/// What may be well formed.
pub(crate) trait Fit: Sized {
    ghost fits: { Self → Type 0 };

    fn is_fit(&self) -> bool
        ensures { IsTrue result ↔ fits self.now };
}

/// What stands in a list that ascends.
pub(crate) trait Row: Fit {
    ghost order: { Self → Self → Ordering };

    fn stands_before(&self, next: &Self) -> bool
        ensures { result ≡ is_lt (order self.now next.now) };

    ghost total: { IsTotalOrder order };
}

impl Fit for Path {
    ghost fits = { IsPath };

    fn is_fit(&self) -> bool {
        let _ = self.as_str();
        true
    }
}

impl Row for Path {
    ghost order = { bytes_cmp };

    fn stands_before(&self, next: &Path) -> bool {
        self < next
    }

    ghost total = { nat_list_cmp_total };
}

impl Fit for Digest {
    ghost fits = { IsDigest };

    fn is_fit(&self) -> bool {
        let _ = self.as_slice();
        true
    }
}

impl<X: Row> Fit for List<X> {
    ghost fits = { AreRows X.fits X.order };

    fn is_fit(&self) -> bool {
        are_fit(self.as_slice()) && do_ascend(self.as_slice())
    }
}

fn are_fit<X: Fit>(rows: &[X]) -> bool
    ensures { IsTrue result ↔ AllByRecursion X.fits rows.now }
{
    for row in rows {
        if !row.is_fit() {
            return false;
        }
    }
    true
}

fn do_ascend<X: Row>(rows: &[X]) -> bool
    ensures { IsTrue result ↔ IsStrictlySortedBy X.order rows.now }
{
    do_neighbours_ascend(rows)
}

fn do_neighbours_ascend<X: Row>(rows: &[X]) -> bool
    ensures { result ≡ neighbours_ascend X.order rows.now }
{
    let mut rest = rows;
    while let [row, after @ ..] = rest {
        if let [next, ..] = after {
            if !row.stands_before(next) {
                return false;
            }
        }
        rest = after;
    }
    true
}

impl Fit for Name {
    ghost fits = { IsText };

    fn is_fit(&self) -> bool {
        let _ = self.as_str();
        true
    }
}

impl Fit for u64 {
    ghost fits = { λ n. n < 2 ^ 64 };

    fn is_fit(&self) -> bool {
        let _number = *self;
        true
    }
}

impl Fit for u16 {
    ghost fits = { λ n. n < 2 ^ 16 };

    fn is_fit(&self) -> bool {
        let _number = *self;
        true
    }
}

impl Fit for Option<Digest> {
    ghost fits = { IsSignature };

    fn is_fit(&self) -> bool {
        match self {
            Some(digest) => digest.is_fit(),
            None => true,
        }
    }
}

impl Fit for Target {
    ghost fits = { IsTarget };

    fn is_fit(&self) -> bool {
        match self {
            Target::Found(path) => path.is_fit(),
            Target::Elsewhere(path) => path.is_fit(),
            Target::Missing => true,
        }
    }
}

impl Fit for Edge {
    ghost fits = { IsEdge };

    fn is_fit(&self) -> bool {
        self.spec.is_fit() && self.to.is_fit()
    }
}

impl Row for Edge {
    ghost order = { edge_cmp };

    fn stands_before(&self, next: &Edge) -> bool {
        self.spec < next.spec
    }

    ghost total = { on_total (λ e. e.spec) nat_list_cmp_total };
}

impl Fit for Finding {
    ghost fits = { IsFinding };

    fn is_fit(&self) -> bool {
        self.offset.is_fit()
            && self.code.number.is_fit()
            && self.first.is_fit()
            && self.second.is_fit()
    }
}

impl Row for Finding {
    ghost order = { finding_cmp };

    fn stands_before(&self, next: &Finding) -> bool {
        self.is_before(next)
    }

    ghost total = { finding_total };
}

impl Fit for Reach {
    ghost fits = { IsReach };

    fn is_fit(&self) -> bool {
        self.path.is_fit() && self.signature.is_fit() && self.edges.is_fit()
    }
}

impl Row for Reach {
    ghost order = { reach_cmp };

    fn stands_before(&self, next: &Reach) -> bool {
        self.path < next.path
    }

    ghost total = { on_total (λ r. r.path) nat_list_cmp_total };
}

impl Fit for Entry {
    ghost fits = { IsEntry };

    fn is_fit(&self) -> bool {
        self.path.is_fit()
            && self.version.is_fit()
            && self.signature.is_fit()
            && self.edges.is_fit()
            && self.reach.is_fit()
            && self.findings.is_fit()
    }
}

impl Row for Entry {
    ghost order = { entry_cmp };

    fn stands_before(&self, next: &Entry) -> bool {
        self.path < next.path
    }

    ghost total = { on_total (λ e. e.path) nat_list_cmp_total };
}

impl Fit for Info {
    ghost fits = { WellFormed };

    fn is_fit(&self) -> bool {
        self.project.is_fit()
            && self.root.is_fit()
            && self.options.is_fit()
            && self.files.is_fit()
            && self.pending.is_fit()
    }
}
