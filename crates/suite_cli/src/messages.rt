//! The message of each outcome, written piece by piece so that it takes no memory.

ghost use Rattle.std.specs.Prelude.{◌≡◌, ℕ, ◌≤◌, OnOk, OnErr, codes, ◌++◌};
ghost use Rattle.std.specs.Fmt.{decimal};
ghost use Rattle.suite_base.specs.Outside.{HasFault, Wrote, WrotePart};
ghost use Rattle.suite_base.specs.Refusals as refusals;
ghost use Rattle.suite_cli.specs.Messages as spec;

use crate::outcomes::Outcome;
use itoa::Buffer;
use suite_base::{Entry, Failed, Fields, Refusal, Sink, write_all, write_pieces};

/// Writes the message of `outcome`; at `Done` there is none. A failed write changes nothing else.
pub fn report<E: Sink>(outcome: &Outcome, err: &mut E) -> Result<(), Failed>
    ensures ok { OnOk result (Wrote (E.written err.old) (spec.message outcome.now) (E.written err.new)) }
    ensures part { OnErr result (WrotePart (E.written err.old) (spec.message outcome.now) (E.written err.new)) }
    ensures cause { OnErr result (HasFault (E.faults err.old) (E.faults err.new)) }
    ensures grows { E.faults err.old ≤ E.faults err.new }
{
    match outcome {
        Outcome::Done => write_all(err, b""),
        Outcome::Refused { file, refusal } => report_refusal(*file, refusal, err),
        Outcome::Usage => write_all(err, b"suite: usage\n"),
        Outcome::ReadFault => write_all(err, b"suite: read fault\n"),
        Outcome::WriteFault => write_all(err, b"suite: write fault\n"),
        Outcome::Memory => write_all(err, b"suite: want of memory\n"),
    }
}

/// Writes the line of a refusal of `file`.
fn report_refusal<E: Sink>(file: u8, refusal: &Refusal, err: &mut E) -> Result<(), Failed>
    ensures ok { OnOk result (Wrote (E.written err.old) (spec.refusal_line file refusal.now) (E.written err.new)) }
    ensures part { OnErr result (WrotePart (E.written err.old) (spec.refusal_line file refusal.now) (E.written err.new)) }
    ensures cause { OnErr result (HasFault (E.faults err.old) (E.faults err.new)) }
    ensures grows { E.faults err.old ≤ E.faults err.new }
{
    let entry = refusal.entry();
    report_entry(file, &entry, err)
}

/// Writes the line of an entry of the list of refusals.
fn report_entry<E: Sink>(file: u8, entry: &Entry, err: &mut E) -> Result<(), Failed>
    ensures ok { OnOk result (Wrote (E.written err.old) (spec.line_of file (refusals.said_by entry.now)) (E.written err.new)) }
    ensures part { OnErr result (WrotePart (E.written err.old) (spec.line_of file (refusals.said_by entry.now)) (E.written err.new)) }
    ensures cause { OnErr result (HasFault (E.faults err.old) (E.faults err.new)) }
    ensures grows { E.faults err.old ≤ E.faults err.new }
{
    let mut file_digits = Buffer::new();
    let mut number_digits = Buffer::new();
    let head = Head {
        file: file_digits.format(file).as_bytes(),
        number: number_digits.format(entry.number).as_bytes(),
        name: entry.name.as_bytes(),
    };
    match entry.fields {
        Fields::NoFields => report_plain(&head, err),
        Fields::One(n) => report_one(&head, n, err),
        Fields::Two(a, b) => report_two(&head, a, b, err),
        Fields::Counted(name, n) => report_counted(&head, name, n, err),
    }
}

/// What each line of a refusal begins with: the file, the number and the name.
#[derive(Clone, Copy, Debug)]
struct Head<'a> {
    file: &'a [u8],
    number: &'a [u8],
    name: &'a [u8],
}

fn report_plain<E: Sink>(head: &Head<'_>, err: &mut E) -> Result<(), Failed>
    ensures ok { OnOk result (Wrote (E.written err.old) (spec.line_with head.now refusals.no_field) (E.written err.new)) }
    ensures part { OnErr result (WrotePart (E.written err.old) (spec.line_with head.now refusals.no_field) (E.written err.new)) }
    ensures cause { OnErr result (HasFault (E.faults err.old) (E.faults err.new)) }
    ensures grows { E.faults err.old ≤ E.faults err.new }
{
    let pieces: [&[u8]; 7] = [
        b"suite: refused ",
        head.file,
        b" ",
        head.number,
        b" ",
        head.name,
        b"\n",
    ];
    write_pieces(err, &pieces)
}

fn report_one<E: Sink>(head: &Head<'_>, n: u32, err: &mut E) -> Result<(), Failed>
    ensures ok { OnOk result (Wrote (E.written err.old) (spec.line_with head.now (refusals.one_field n)) (E.written err.new)) }
    ensures part { OnErr result (WrotePart (E.written err.old) (spec.line_with head.now (refusals.one_field n)) (E.written err.new)) }
    ensures cause { OnErr result (HasFault (E.faults err.old) (E.faults err.new)) }
    ensures grows { E.faults err.old ≤ E.faults err.new }
{
    let mut n_digits = Buffer::new();
    let n = n_digits.format(n).as_bytes();
    let pieces: [&[u8]; 9] = [
        b"suite: refused ",
        head.file,
        b" ",
        head.number,
        b" ",
        head.name,
        b" ",
        n,
        b"\n",
    ];
    write_pieces(err, &pieces)
}

fn report_two<E: Sink>(head: &Head<'_>, a: u32, b: u32, err: &mut E) -> Result<(), Failed>
    ensures ok { OnOk result (Wrote (E.written err.old) (spec.line_with head.now (refusals.two_fields a b)) (E.written err.new)) }
    ensures part { OnErr result (WrotePart (E.written err.old) (spec.line_with head.now (refusals.two_fields a b)) (E.written err.new)) }
    ensures cause { OnErr result (HasFault (E.faults err.old) (E.faults err.new)) }
    ensures grows { E.faults err.old ≤ E.faults err.new }
{
    let mut a_digits = Buffer::new();
    let mut b_digits = Buffer::new();
    let a = a_digits.format(a).as_bytes();
    let b = b_digits.format(b).as_bytes();
    let pieces: [&[u8]; 11] = [
        b"suite: refused ",
        head.file,
        b" ",
        head.number,
        b" ",
        head.name,
        b" ",
        a,
        b" ",
        b,
        b"\n",
    ];
    write_pieces(err, &pieces)
}

fn report_counted<E: Sink>(head: &Head<'_>, name: &str, n: u32, err: &mut E) -> Result<(), Failed>
    ensures ok { OnOk result (Wrote (E.written err.old) (spec.line_with head.now (refusals.counted_field name.now n)) (E.written err.new)) }
    ensures part { OnErr result (WrotePart (E.written err.old) (spec.line_with head.now (refusals.counted_field name.now n)) (E.written err.new)) }
    ensures cause { OnErr result (HasFault (E.faults err.old) (E.faults err.new)) }
    ensures grows { E.faults err.old ≤ E.faults err.new }
{
    let mut n_digits = Buffer::new();
    let n = n_digits.format(n).as_bytes();
    let pieces: [&[u8]; 11] = [
        b"suite: refused ",
        head.file,
        b" ",
        head.number,
        b" ",
        head.name,
        b" ",
        name.as_bytes(),
        b" ",
        n,
        b"\n",
    ];
    write_pieces(err, &pieces)
}
