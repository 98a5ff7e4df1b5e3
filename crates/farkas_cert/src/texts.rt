//! The text of a certificate: one line, its multipliers with single spaces between them.

ghost use Rattle.std.specs.Prelude.{◌≡◌, ◌++◌, [], ◌∷◌, IfOk, OnOk, OnErr};
ghost use Rattle.std.specs.List.{flat_map};
ghost use Rattle.std.specs.Fmt.{signed_decimal};
ghost use Rattle.relation_core.specs.Layouts.{spaced};
ghost use Rattle.farkas_cert.specs.Texts.{certificate_line, certificate_text, multiplier_read, certificate_read, ReadsBack};

use crate::certificates::Certificate;
use row_core::Coeff;
use std::alloc::Global;
use suite_base::{NoMemory, NumberRead, Text, next_word, read_number};

/// Appends the multipliers with single spaces between them, and a newline. On want of memory the
/// text is as before.
pub fn print_cert(text: &mut Text, certificate: &Certificate) -> Result<(), NoMemory>
    ensures ok { OnOk result (text.new ≡ text.old ++ certificate_text certificate.now) }
    ensures err { OnErr result (text.new ≡ text.old) }
{
    let mut line = Text::new(certificate.allocator());
    print_multipliers(&mut line, certificate)?;
    line.push(b'\n')?;
    text.push_bytes(line.bytes())
}

/// Appends the multipliers with single spaces between them, without a newline. On want of memory some of
/// them may have been appended.
pub fn print_multipliers(text: &mut Text, certificate: &Certificate) -> Result<(), NoMemory>
    ensures { OnOk result (text.new ≡ text.old ++ certificate_line certificate.now) }
{
    push_line(text, certificate.as_slice())
}

/// Reads the words of `line`, its runs of bytes that aren't blank, as multipliers. `None` exactly
/// where some word is no number, or is out of the range of coefficients.
pub fn read_cert(alloc: Global, line: &[u8]) -> Result<Option<Certificate>, NoMemory>
    ensures { IfOk result (λ found. found ≡ certificate_read line.now) }
{
    let mut certificate = Certificate::new(alloc);
    let mut from = 0;
    while let Some((start, end)) = next_word(line, from) {
        let Some(multiplier) = read_multiplier(&line[start..end]) else {
            return Ok(None);
        };
        certificate.push(multiplier)?;
        from = end;
    }
    Ok(Some(certificate))
}

/// What `read_cert` reads from a printed line without its newline is the certificate itself.
pub fn reads_back()
    ensures { ReadsBack }
{}

// Appends the multipliers with single spaces between them.
fn push_line(text: &mut Text, multipliers: &[Coeff]) -> Result<(), NoMemory>
    ensures { OnOk result (text.new ≡ text.old ++ certificate_line multipliers.now) }
{
    match multipliers {
        [] => Ok(()),
        [first, rest @ ..] => {
            push_multiplier(text, *first)?;
            push_rest(text, rest)
        }
    }
}

// Appends multipliers, each behind a space.
fn push_rest(text: &mut Text, multipliers: &[Coeff]) -> Result<(), NoMemory>
    ensures { OnOk result (text.new ≡ text.old ++ flat_map spaced multipliers.now) }
{
    for multiplier in multipliers {
        push_spaced(text, *multiplier)?;
    }
    Ok(())
}

// Appends a multiplier behind a space.
fn push_spaced(text: &mut Text, multiplier: Coeff) -> Result<(), NoMemory>
    ensures { OnOk result (text.new ≡ text.old ++ spaced multiplier) }
{
    text.push(b' ')?;
    push_multiplier(text, multiplier)
}

// Appends a multiplier.
fn push_multiplier(text: &mut Text, multiplier: Coeff) -> Result<(), NoMemory>
    ensures { OnOk result (text.new ≡ text.old ++ signed_decimal multiplier) }
{
    text.push_number(multiplier.value())
}

// The multiplier that a word is; `None` where it is no number word, or out of range.
fn read_multiplier(word: &[u8]) -> Option<Coeff>
    ensures { result ≡ multiplier_read word.now }
{
    match read_number(word) {
        NumberRead::Value(n) => Coeff::new(n),
        NumberRead::TooLarge => None,
        NumberRead::NotNumber => None,
    }
}
