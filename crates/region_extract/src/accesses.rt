//! Accesses to what names with subscripts stand for.

ghost use Rattle.std.specs.Prelude.{◌≡◌, IfOk, OnOk, All, length, map};
ghost use Rattle.clan_extract.specs.Regions.{is_among};
ghost use Rattle.clan_rows.specs.Contents.{made};
ghost use Rattle.clan_walk.specs.Places.{IsSizedForm};
ghost use Rattle.region_extract.specs.Walks as spec;
ghost use Rattle.region_forms.specs.Evaluations.{named_of};
ghost use Rattle.region_trees.specs.Layers.{terms_by};
ghost use Rattle.region_trees.specs.Terms.{sum_of, target_of};

use c_lexer::piece_bytes;
use c_parser::{Sum, Target};
use clan_rows::Form;
use clan_walk::Extraction;
use region_forms::{Scope, sum_value};
use scop_data::AccessKind;
use std::alloc::Global;
use suite_base::{List, NoMemory, Text};

/// What names stand for at a place of the walk.
pub fn scope_at<'a>(source: &'a [u8], place: &'a Extraction) -> Scope<'a>
    ensures source { result.source.now ≡ source.now }
    ensures parameters { result.parameters.now ≡ place.now.parameters }
    ensures loops { result.loops.now ≡ place.now.loops }
{
    Scope {
        source,
        parameters: place.parameters(),
        loops: place.loops(),
    }
}

// The forms of subscripts, each `None` where it or a part of it is out of range.
fn forms_of(
    alloc: Global,
    scope: &Scope<'_>,
    subscripts: &[Sum],
) -> Result<List<Option<Form>>, NoMemory>
    ensures forms { IfOk result (λ forms. spec.AreForms scope.now.parameters.now scope.now.loops.now (terms_by (sum_of scope.now.source.now) subscripts.now) (map made forms)) }
    ensures sizes { IfOk result (λ forms. All (IsSizedForm (length scope.now.loops.now) (length scope.now.parameters.now)) forms) }
{
    let mut forms = List::with_capacity(alloc, subscripts.len())?;
    for subscript in subscripts {
        let value = sum_value(alloc, scope, subscript)?;
        forms.push(value.form)?;
    }
    Ok(forms)
}

/// Adds an access of this kind to what a name with its subscripts stands for.
pub fn add_target(
    alloc: Global,
    source: &[u8],
    kind: AccessKind,
    target: &Target,
    place: &mut Extraction,
) -> Result<(), NoMemory>
    ensures { OnOk result (spec.Refers kind (target_of source.now target.now) place.old place.new) }
{
    let scope = scope_at(source, place);
    let forms = forms_of(alloc, &scope, target.subscripts.as_slice())?;
    let name = piece_bytes(source, target.name);
    place.add_access(alloc, kind, name, forms.as_slice())
}

// Whether a name is one of these.
fn is_among(name: &[u8], names: &[Text]) -> bool
    ensures { result ≡ is_among name.now names.now }
{
    let mut names = names;
    while let [first, rest @ ..] = names {
        if first.bytes() == name {
            return true;
        }
        names = rest;
    }
    false
}

// Whether a name without subscripts is a loop's round the place or a parameter's.
fn is_value(source: &[u8], target: &Target, place: &Extraction) -> bool
    ensures { result ≡ spec.is_value (target_of source.now target.now) place.now }
{
    if !target.subscripts.is_empty() {
        return false;
    }
    let name = piece_bytes(source, target.name);
    if is_among(name, place.loops()) {
        return true;
    }
    is_among(name, place.parameters())
}

/// Adds the read of a name with its subscripts, unless it is a loop's or a parameter's.
pub fn read_target(
    alloc: Global,
    source: &[u8],
    target: &Target,
    place: &mut Extraction,
) -> Result<(), NoMemory>
    ensures { OnOk result (spec.Reads (named_of (target_of source.now target.now)) place.old place.new) }
{
    if is_value(source, target, place) {
        return Ok(());
    }
    add_target(alloc, source, AccessKind::Read, target, place)
}
