ghost use Rattle.std.specs.Prelude.{◌≡◌, [], ℕ, List, IsTrue, Some, None, Ok, map, string_bytes, true, false};
ghost use Rattle.tb_outside.specs.Moments.{Always};
ghost use Rattle.tb_plan.specs.Plans.{plan_of};
ghost use Rattle.tb_words.specs.Commands.{command_of};
ghost use Rattle.tb_words.specs.declared.commands.Command.{Command};
ghost use Rattle.tb_session.specs.Blamed.{Blamed};
ghost use Rattle.tb_session.specs.Builds.{Clean, IsClean, IsNoOutput, checks_of, builds_of};
ghost use Rattle.tb_session.specs.Commands.{are_served, is_served};
ghost use Rattle.tb_session.specs.Ends.{Ends, IsSettled};
ghost use Rattle.tb_session.specs.Served.{EndsServed};
ghost use Rattle.tb_session.specs.Generations.{opening};
ghost use Rattle.tb_session.specs.Headline.{Headline, HasOutputs, Premises, NotServed};
ghost use Rattle.tb_session.specs.Plans.{IsOutside};

use crate::ended::Ended;
use crate::opening::read_texts;
use crate::prepares::prepare;
use crate::publishes::{publish, stopped};
use crate::words::is_served;
use std::alloc::Global;
use std::sync::Wait;
use std::thread::Threads;
use tb_outside::{Disk, Feed, Gate, Sink, Tree, Trouble};
use tb_text::{NoMemory, Status, Which};
use tb_words::{Command, WordsFault, read_words};

// A run of a command that is served.
fn run_command<T: Tree, D: Disk, F: Feed, O: Sink>(
    alloc: Global,
    command: Command,
    tree: &mut T,
    disk: D,
    feed: F,
    out: O,
) -> Ended<D, F, O>
    requires { command.watch ≡ false }
    ensures headline { IsTrue T.tells → Headline true D.tells F.tells O.tells (record {
      command = command;
      tree = T.texts tree.old;
      turns = F.turns feed;
      turns_left = F.turns result.feed;
      printed = O.taken out;
      printed_last = O.taken result.out;
      files = D.reads result.disk;
      before = record { tree = T.count tree.old; disk = D.count disk; feed = F.count feed; sink = O.count out };
      after = record { tree = T.count tree.new; disk = D.count result.disk; feed = F.count result.feed; sink = O.count result.out };
      status = result.status;
      settled = result.settled;
      checked = result.checked;
      built = result.built;
    }) }
    ensures ends { EndsServed
        (record { tree = T.count tree.old; disk = D.count disk; feed = F.count feed; sink = O.count out })
        (record { tree = T.count tree.new; disk = D.count result.disk; feed = F.count result.feed; sink = O.count result.out })
        result.status }
    ensures not_built { IsTrue T.tells → result.status ≡ Status.NotBuilt → NotServed (opening (T.texts tree.old)) command.roots }
    ensures unserved { IsTrue T.tells → NotServed (opening (T.texts tree.old)) command.roots → (result.disk ≡ disk) × (result.out ≡ out) }
    ensures untouched { result.status ≡ Status.NotBuilt → (result.disk ≡ disk) × (result.out ≡ out) × (result.settled ≡ []) × (result.checked ≡ 0) × (result.built ≡ 0) }
    ensures opening { result.status ≡ Status.Outside Which.Tree None → (result.disk ≡ disk) × (result.out ≡ out) × (result.settled ≡ []) × (result.checked ≡ 0) × (result.built ≡ 0) }
    ensures feed { result.feed ≡ feed }
    ensures unsettled { (IsSettled result.status → ⊥) → result.settled ≡ [] }
    ensures uncounted { (IsSettled result.status → ⊥) → (result.status ≡ Status.Outside Which.Sink None → ⊥) → (result.checked ≡ 0) × (result.built ≡ 0) }
    ensures unprinted { IsTrue T.tells → result.status ≡ Status.Outside Which.Sink None → (clean : Clean) → IsClean (opening (T.texts tree.old)) command.roots clean
        → (result.checked ≡ checks_of clean) × (result.built ≡ builds_of clean) }
    ensures stays { IsTrue T.tells → IsTrue D.tells → IsSettled result.status → (clean : Clean) → IsClean (opening (T.texts tree.old)) command.roots clean
        → Always (λ files. HasOutputs files clean) (D.left result.disk (D.clock result.disk)) }
    ensures tree { IsTrue T.tells → T.texts tree.new ≡ T.texts tree.old }
    ensures elsewhere { IsTrue T.tells → IsTrue D.tells → (path : List ℕ) → IsOutside (plan_of (opening (T.texts tree.old)) command.roots) path → D.reads result.disk path ≡ D.reads disk path }
    ensures kept { IsTrue T.tells → IsTrue D.tells → (clean : Clean) → IsClean (opening (T.texts tree.old)) command.roots clean → (path : List ℕ) → IsNoOutput clean path → D.reads result.disk path ≡ D.reads disk path }
    ensures blamed { IsTrue T.tells → IsTrue D.tells → (config : List ℕ) → result.status ≡ Status.Outside Which.Disk (Some config)
        → Blamed (opening (T.texts tree.old)) command.roots config (D.reads disk) (D.reads result.disk) }
{
    let texts = match read_texts(alloc, tree) {
        Ok(texts) => texts,
        Err(Trouble::Failed) => {
            let status = Status::Outside {
                which: Which::Tree,
                project: None,
            };
            return stopped(alloc, status, disk, feed, out);
        }
        Err(Trouble::NoMemory) => return stopped(alloc, Status::NoMemory, disk, feed, out),
    };
    match prepare(alloc, &texts, command.roots.as_slice(), command.verbose) {
        Ok(Some(publication)) => publish(alloc, publication, disk, feed, out),
        Ok(None) => stopped(alloc, Status::NotBuilt, disk, feed, out),
        Err(NoMemory) => stopped(alloc, Status::NoMemory, disk, feed, out),
    }
}

/// A run on the calling thread alone. It waits for nobody and returns.
pub fn run_alone<T: Tree, D: Disk, F: Feed, O: Sink>(
    alloc: Global,
    words: &[String],
    tree: &mut T,
    disk: D,
    feed: F,
    out: O,
) -> Ended<D, F, O>
    ensures headline { Premises T.tells → (command : Command) → command_of (map string_bytes words.now) ≡ Ok command
        → Headline true D.tells F.tells O.tells (record {
          command = command;
          tree = T.texts tree.old;
          turns = F.turns feed;
          turns_left = F.turns result.feed;
          printed = O.taken out;
          printed_last = O.taken result.out;
          files = D.reads result.disk;
          before = record { tree = T.count tree.old; disk = D.count disk; feed = F.count feed; sink = O.count out };
          after = record { tree = T.count tree.new; disk = D.count result.disk; feed = F.count result.feed; sink = O.count result.out };
          status = result.status;
          settled = result.settled;
          checked = result.checked;
          built = result.built;
        }) }
    ensures ends { Ends (map string_bytes words.now)
        (record { tree = T.count tree.old; disk = D.count disk; feed = F.count feed; sink = O.count out })
        (record { tree = T.count tree.new; disk = D.count result.disk; feed = F.count result.feed; sink = O.count result.out })
        result.status }
    // Words with a fault, and words that are not served, are answered before anything else is done.
    ensures unread { are_served (command_of (map string_bytes words.now)) ≡ false
        → (tree.new ≡ tree.old) × (result.disk ≡ disk) × (result.feed ≡ feed) × (result.out ≡ out) × (result.settled ≡ []) × (result.checked ≡ 0) × (result.built ≡ 0) }
    // Words that are served are not built exactly where the texts are not; then nothing was touched.
    ensures not_built { IsTrue T.tells → (command : Command) → command_of (map string_bytes words.now) ≡ Ok command → is_served command ≡ true
        → result.status ≡ Status.NotBuilt → NotServed (opening (T.texts tree.old)) command.roots }
    ensures unserved { IsTrue T.tells → (command : Command) → command_of (map string_bytes words.now) ≡ Ok command → NotServed (opening (T.texts tree.old)) command.roots
        → (result.disk ≡ disk) × (result.feed ≡ feed) × (result.out ≡ out) }
    ensures untouched { result.status ≡ Status.NotBuilt → (result.disk ≡ disk) × (result.feed ≡ feed) × (result.out ≡ out) }
    ensures nothing { result.status ≡ Status.NotBuilt → (result.settled ≡ []) × (result.checked ≡ 0) × (result.built ≡ 0) }
    // Where the tree failed, nothing else was touched.
    ensures opening { result.status ≡ Status.Outside Which.Tree None
        → (result.disk ≡ disk) × (result.feed ≡ feed) × (result.out ≡ out) × (result.settled ≡ []) × (result.checked ≡ 0) × (result.built ≡ 0) }
    // Without `--watch` the feed is not asked, and nothing is settled where the run does not settle.
    ensures unasked { (command : Command) → command_of (map string_bytes words.now) ≡ Ok command → command.watch ≡ false → result.feed ≡ feed }
    ensures unsettled { (command : Command) → command_of (map string_bytes words.now) ≡ Ok command → command.watch ≡ false → (IsSettled result.status → ⊥) → result.settled ≡ [] }
    // Where it stops before all is written, nothing is counted; where the sink fails after that, all that was written is.
    ensures uncounted { (command : Command) → command_of (map string_bytes words.now) ≡ Ok command → command.watch ≡ false → (IsSettled result.status → ⊥)
        → (result.status ≡ Status.Outside Which.Sink None → ⊥) → (result.checked ≡ 0) × (result.built ≡ 0) }
    ensures unprinted { IsTrue T.tells → (command : Command) → command_of (map string_bytes words.now) ≡ Ok command → command.watch ≡ false
        → result.status ≡ Status.Outside Which.Sink None → (clean : Clean) → IsClean (opening (T.texts tree.old)) command.roots clean
        → (result.checked ≡ checks_of clean) × (result.built ≡ builds_of clean) }
    // Where it settles, a crash then leaves all outputs.
    ensures stays { IsTrue T.tells → IsTrue D.tells → (command : Command) → command_of (map string_bytes words.now) ≡ Ok command → command.watch ≡ false
        → IsSettled result.status → (clean : Clean) → IsClean (opening (T.texts tree.old)) command.roots clean
        → Always (λ files. HasOutputs files clean) (D.left result.disk (D.clock result.disk)) }
    ensures tree { IsTrue T.tells → T.texts tree.new ≡ T.texts tree.old }
    // No path outside the output folders of the plan reads otherwise, whatever the status is.
    ensures elsewhere { IsTrue T.tells → IsTrue D.tells → (command : Command) → command_of (map string_bytes words.now) ≡ Ok command
        → (path : List ℕ) → IsOutside (plan_of (opening (T.texts tree.old)) command.roots) path → D.reads result.disk path ≡ D.reads disk path }
    // No path but those of outputs does, whatever stood in the output folders.
    ensures kept { IsTrue T.tells → IsTrue D.tells → (command : Command) → command_of (map string_bytes words.now) ≡ Ok command
        → (clean : Clean) → IsClean (opening (T.texts tree.old)) command.roots clean → (path : List ℕ) → IsNoOutput clean path → D.reads result.disk path ≡ D.reads disk path }
    // Where a call of the disk failed, the project is named that was being written.
    ensures blamed { IsTrue T.tells → IsTrue D.tells → (command : Command) → command_of (map string_bytes words.now) ≡ Ok command
        → (config : List ℕ) → result.status ≡ Status.Outside Which.Disk (Some config)
        → Blamed (opening (T.texts tree.old)) command.roots config (D.reads disk) (D.reads result.disk) }
{
    let command = match read_words(alloc, words) {
        Ok(command) => command,
        Err(WordsFault::Usage(fault)) => {
            return stopped(alloc, Status::Usage(fault), disk, feed, out);
        }
        Err(WordsFault::NoMemory) => return stopped(alloc, Status::NoMemory, disk, feed, out),
    };
    if !is_served(&command) {
        return stopped(alloc, Status::NotBuilt, disk, feed, out);
    }
    run_command(alloc, command, tree, disk, feed, out)
}

/// A run of the program. It waits, so what is said of it holds if it returns.
pub fn run<
    R: Threads + Wait + Sync,
    T: Tree,
    D: Disk + Send,
    F: Feed + Send,
    O: Sink + Send,
    G: Gate + Sync,
>(
    _rt: &R,
    alloc: Global,
    words: &[String],
    tree: &mut T,
    disk: D,
    feed: F,
    out: O,
    _gate: &G,
) -> Ended<D, F, O>
    ensures headline { Premises T.tells → (command : Command) → command_of (map string_bytes words.now) ≡ Ok command
        → Headline false D.tells F.tells O.tells (record {
          command = command;
          tree = T.texts tree.old;
          turns = F.turns feed;
          turns_left = F.turns result.feed;
          printed = O.taken out;
          printed_last = O.taken result.out;
          files = D.reads result.disk;
          before = record { tree = T.count tree.old; disk = D.count disk; feed = F.count feed; sink = O.count out };
          after = record { tree = T.count tree.new; disk = D.count result.disk; feed = F.count result.feed; sink = O.count result.out };
          status = result.status;
          settled = result.settled;
          checked = result.checked;
          built = result.built;
        }) }
    ensures ends { Ends (map string_bytes words.now)
        (record { tree = T.count tree.old; disk = D.count disk; feed = F.count feed; sink = O.count out })
        (record { tree = T.count tree.new; disk = D.count result.disk; feed = F.count result.feed; sink = O.count result.out })
        result.status }
    // Words with a fault, and words that are not served, are answered before anything else is done.
    ensures unread { are_served (command_of (map string_bytes words.now)) ≡ false
        → (tree.new ≡ tree.old) × (result.disk ≡ disk) × (result.feed ≡ feed) × (result.out ≡ out) × (result.settled ≡ []) × (result.checked ≡ 0) × (result.built ≡ 0) }
    // Words that are served are not built exactly where the texts are not; then nothing was touched.
    ensures not_built { IsTrue T.tells → (command : Command) → command_of (map string_bytes words.now) ≡ Ok command → is_served command ≡ true
        → result.status ≡ Status.NotBuilt → NotServed (opening (T.texts tree.old)) command.roots }
    ensures unserved { IsTrue T.tells → (command : Command) → command_of (map string_bytes words.now) ≡ Ok command → NotServed (opening (T.texts tree.old)) command.roots
        → (result.disk ≡ disk) × (result.feed ≡ feed) × (result.out ≡ out) }
    ensures untouched { result.status ≡ Status.NotBuilt → (result.disk ≡ disk) × (result.feed ≡ feed) × (result.out ≡ out) }
    ensures nothing { result.status ≡ Status.NotBuilt → (result.settled ≡ []) × (result.checked ≡ 0) × (result.built ≡ 0) }
    // Where the tree failed, nothing else was touched.
    ensures opening { result.status ≡ Status.Outside Which.Tree None
        → (result.disk ≡ disk) × (result.feed ≡ feed) × (result.out ≡ out) × (result.settled ≡ []) × (result.checked ≡ 0) × (result.built ≡ 0) }
    // Without `--watch` the feed is not asked, and nothing is settled where the run does not settle.
    ensures unasked { (command : Command) → command_of (map string_bytes words.now) ≡ Ok command → command.watch ≡ false → result.feed ≡ feed }
    ensures unsettled { (command : Command) → command_of (map string_bytes words.now) ≡ Ok command → command.watch ≡ false → (IsSettled result.status → ⊥) → result.settled ≡ [] }
    // Where it stops before all is written, nothing is counted; where the sink fails after that, all that was written is.
    ensures uncounted { (command : Command) → command_of (map string_bytes words.now) ≡ Ok command → command.watch ≡ false → (IsSettled result.status → ⊥)
        → (result.status ≡ Status.Outside Which.Sink None → ⊥) → (result.checked ≡ 0) × (result.built ≡ 0) }
    ensures unprinted { IsTrue T.tells → (command : Command) → command_of (map string_bytes words.now) ≡ Ok command → command.watch ≡ false
        → result.status ≡ Status.Outside Which.Sink None → (clean : Clean) → IsClean (opening (T.texts tree.old)) command.roots clean
        → (result.checked ≡ checks_of clean) × (result.built ≡ builds_of clean) }
    // Where it settles, a crash then leaves all outputs.
    ensures stays { IsTrue T.tells → IsTrue D.tells → (command : Command) → command_of (map string_bytes words.now) ≡ Ok command → command.watch ≡ false
        → IsSettled result.status → (clean : Clean) → IsClean (opening (T.texts tree.old)) command.roots clean
        → Always (λ files. HasOutputs files clean) (D.left result.disk (D.clock result.disk)) }
    ensures tree { IsTrue T.tells → T.texts tree.new ≡ T.texts tree.old }
    // No path outside the output folders of the plan reads otherwise, whatever the status is.
    ensures elsewhere { IsTrue T.tells → IsTrue D.tells → (command : Command) → command_of (map string_bytes words.now) ≡ Ok command
        → (path : List ℕ) → IsOutside (plan_of (opening (T.texts tree.old)) command.roots) path → D.reads result.disk path ≡ D.reads disk path }
    // No path but those of outputs does, whatever stood in the output folders.
    ensures kept { IsTrue T.tells → IsTrue D.tells → (command : Command) → command_of (map string_bytes words.now) ≡ Ok command
        → (clean : Clean) → IsClean (opening (T.texts tree.old)) command.roots clean → (path : List ℕ) → IsNoOutput clean path → D.reads result.disk path ≡ D.reads disk path }
    // Where a call of the disk failed, the project is named that was being written.
    ensures blamed { IsTrue T.tells → IsTrue D.tells → (command : Command) → command_of (map string_bytes words.now) ≡ Ok command
        → (config : List ℕ) → result.status ≡ Status.Outside Which.Disk (Some config)
        → Blamed (opening (T.texts tree.old)) command.roots config (D.reads disk) (D.reads result.disk) }
{
    run_alone(alloc, words, tree, disk, feed, out)
}
