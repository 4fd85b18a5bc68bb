ghost use Rattle.std.specs.Prelude.{◌≡◌, ◌<◌, ℕ, length, slice_index};
ghost use Rattle.std.specs.Cmp.{partial_equiv_from_equiv};
ghost use Rattle.std.specs.Cmp.Lexicographic.{nat_list_eq_equiv};
ghost use Rattle.std.specs.Str.{bytes_eq};

use std::marker::Model;

/// A SHA-256 value (FIPS 180-4). Contracts see the list of its 32 bytes.
#[derive(Clone, Copy, Debug)]
pub struct Digest {
    bytes: [u8; 32],
}

impl Model for Digest {
    ghost use Rattle.std.specs.Prelude.{List, ℕ, ◌<◌, slice_index};

    ghost Value = { List ℕ };

    ghost view = { λ d. d.bytes };

    ghost inverse = { λ v. record { bytes = v } };

    ghost invariant = { λ d. (i : ℕ) → slice_index d.bytes i < 256 };
}

impl Digest {
    pub fn from_bytes(bytes: [u8; 32]) -> Digest
        ensures { result ≡ bytes }
    {
        Digest { bytes }
    }

    pub fn as_slice(&self) -> &[u8]
        ensures value { result.now ≡ self.now }
        ensures length { length self.now ≡ 32 }
        ensures small { (i : ℕ) → slice_index self.now i < 256 }
    {
        self.bytes.as_slice()
    }
}

impl PartialEq for Digest {
    ghost eq = { bytes_eq };

    ghost laws = { partial_equiv_from_equiv nat_list_eq_equiv };

    fn eq(&self, other: &Digest) -> bool {
        self.bytes.as_slice() == other.bytes.as_slice()
    }
}

impl Eq for Digest {
    ghost laws = { nat_list_eq_equiv };
}
