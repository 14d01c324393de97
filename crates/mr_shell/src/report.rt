//! Writing what a report shows.

ghost use Rattle.std.specs.Prelude.{◌≡◌, ◌≤◌, [], IfErr, OnErr, OnOk, drop, length};
ghost use Rattle.mr_io.specs.Faults.{CountsFault};
ghost use Rattle.mr_shell.specs.Ends.{EndsLines};
ghost use Rattle.mr_shell.specs.Texts.{Wrote, WrotePart, texts, ShowsSome};

use crate::outcome::End;
use mr_base::Bytes;
use mr_io::Sink;
use scenario::{JournalEntry, Mode, text_of};
use std::alloc::Global;

/// The entries behind the first so many.
pub fn entries_after(journal: &[JournalEntry], count: usize) -> &[JournalEntry]
    requires { count ≤ length journal.now }
    ensures { result.now ≡ drop count journal.now }
{
    &journal[count..]
}

/// Writes a text, in as many pieces as the sink takes. Errors: `End::Write` where a write of what was left failed.
pub fn write_text<K: Sink>(text: &[u8], sink: &mut K) -> Result<(), End>
    ensures whole { OnOk result (Wrote (K.written sink.old) (K.written sink.new) text.now) }
    ensures part { OnErr result (WrotePart (K.written sink.old) (K.written sink.new) [] text.now) }
    ensures ends { IfErr result (λ e. e ≡ End.Write) }
    ensures failed { OnErr result (CountsFault (K.faults sink.old) (K.faults sink.new) K.most_faults) }
    ensures never_falls { K.faults sink.old ≤ K.faults sink.new }
{
    let mut done = 0;
    while done < text.len() {
        done += sink.write(&text[done..])?;
    }
    Ok(())
}

/// Writes what a report of this mode shows of each entry, one after the other. The names are those of the transactions.
pub fn write_entries<K: Sink>(
    alloc: Global,
    names: &[Bytes],
    entries: &[JournalEntry],
    mode: Mode,
    sink: &mut K,
) -> Result<(), End>
    ensures written { OnOk result (Wrote (K.written sink.old) (K.written sink.new) (texts mode names.now entries.now)) }
    ensures stops { IfErr result (λ e. ShowsSome e mode names.now entries.now (K.written sink.old) (K.written sink.new)) }
    ensures ends { IfErr result EndsLines }
    ensures failed { result ≡ Err End.Write → CountsFault (K.faults sink.old) (K.faults sink.new) K.most_faults }
    ensures never_falls { K.faults sink.old ≤ K.faults sink.new }
{
    for entry in entries {
        let text = text_of(alloc, names, entry, mode)?;
        write_text(text.as_slice(), sink)?;
    }
    Ok(())
}
