//! `read_texts`: the texts of several files.
ghost use Rattle.std.specs.Prelude.{◌≡◌, ◌≢◌, OnOk, Err, true, map};
ghost use Rattle.std.specs.String.{string_bytes};
ghost use Rattle.sd_outside.specs.Counts.{Rose, RoseBeyond};
ghost use Rattle.command_words.specs.Command.{all_differ};
ghost use Rattle.sd_engine.specs.Running.{AreTextsBehind};
ghost use Rattle.sd_engine.specs.Serve.{IsFirstLong, most_bytes};

use sd_outside::{Shelf, TextFault, read_text};
use std::alloc::Global;

/// Reads the texts of files whose names differ, each whole, behind those that were read before.
///
/// `ReadFault`, `TooLong`, `Memory`: as `read_text` answers for the first file that is not read whole.
pub fn read_texts<S: Shelf>(
    alloc: Global,
    shelf: &mut S,
    files: &[String],
    texts: &mut Vec<Vec<u8>>,
) -> Result<(), TextFault>
    requires { all_differ (map string_bytes files.now) ≡ true }
    ensures read { OnOk result (AreTextsBehind (S.left shelf.old) (map string_bytes files.now) (map (λ text. text.items) texts.old.items)
        (map (λ text. text.items) texts.new.items)) }
    ensures too_long { result ≡ Err TextFault.TooLong → IsFirstLong (S.left shelf.old) (map string_bytes files.now) }
    ensures too_much { result ≡ Err TextFault.TooLong → RoseBeyond most_bytes (S.given shelf.old) (S.given shelf.new) }
    ensures read_fault { result ≡ Err TextFault.ReadFault → Rose (S.faults shelf.old) (S.faults shelf.new) }
    ensures calm { result ≢ Err TextFault.ReadFault → S.faults shelf.new ≡ S.faults shelf.old }
{
    let [first, rest @ ..] = files else {
        return Ok(());
    };
    let text = read_text(alloc, shelf, first.as_str())?;
    if texts.push(text).is_err() {
        return Err(TextFault::Memory);
    }
    read_texts(alloc, shelf, rest, texts)
}
