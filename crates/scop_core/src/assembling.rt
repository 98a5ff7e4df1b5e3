//! Statements in solved form, made of raw ones.

ghost use Rattle.std.specs.Prelude.{◌≡◌, ◌<◌, ◌≤◌, ◌+◌, [], ◌∷◌, ◌++◌, length, drop, slice_get, true, None, Some, All, IfOk, IfSome, OnOk, ℕ};
ghost use Rattle.std.specs.Fmt.{decimal};
ghost use Rattle.suite_base.specs.Limits.{max_statements, max_dimensions};
ghost use Rattle.scop_data.specs.SolvedRows.{HasRelation, HasAccessRelation};
ghost use Rattle.schedule_forms.specs.SolvedForm.{is_scattering, is_access, schedule_of, access_of};
ghost use Rattle.scop_core.specs.Assembly.{is_one, the_part, are_solved, is_solved, first_unsolved, iterators_of, default_names, body_from, solved_accesses, solved_statement, solved_statements, HasInputs, HasNames, HasShapes};
ghost use Rattle.scop_data.specs.SolvedData.{HasRelations};

use relation_core::Relation;
use schedule_forms::{solved_access, solved_schedule, solves_access, solves_schedule};
use scop_data::{Access, AccessKind, Body, RawStatement, Schedule, Statement};
use std::alloc::Global;
use suite_base::{List, NoMemory, Refusal, Text};

// Whether the relation is one scattering in solved form.
fn is_solved_scattering(relation: &Relation) -> bool
    ensures { result ≡ is_one is_scattering relation.now }
{
    match relation.parts() {
        [part] => solves_schedule(part),
        _ => false,
    }
}

// Whether the relation is one access in solved form.
fn is_solved_access(relation: &Relation) -> bool
    ensures { result ≡ is_one is_access relation.now }
{
    match relation.parts() {
        [part] => solves_access(part),
        _ => false,
    }
}

// Whether every access is in solved form.
fn are_solved_accesses(accesses: &[(AccessKind, Relation)]) -> bool
    ensures { result ≡ are_solved accesses.now }
{
    for access in accesses {
        if !is_solved_access(&access.1) {
            return false;
        }
    }
    true
}

// Whether the scattering and the accesses of a statement are in solved form.
fn is_solved_statement(raw: &RawStatement) -> bool
    ensures { result ≡ is_solved raw.now }
{
    is_solved_scattering(&raw.scattering) && are_solved_accesses(raw.accesses.as_slice())
}

// The number of iterators of a statement: the outputs of its domain.
fn iterator_count(raw: &RawStatement) -> usize
    ensures answer { result ≡ iterators_of raw.now }
    ensures limit { result ≤ max_dimensions }
{
    match raw.domain.parts() {
        [] => 0,
        [part, ..] => part.shape().outputs,
    }
}

// A letter and a number behind it.
fn numbered(alloc: Global, letter: u8, number: usize) -> Result<Text, NoMemory>
    ensures { IfOk result (λ text. text ≡ letter ∷ decimal number) }
{
    let mut text = Text::new(alloc);
    text.push(letter)?;
    text.push_number(number as i128)?;
    Ok(text)
}

// Appends the name of iterator `k`, from 0.
fn push_name(alloc: Global, k: usize, made: &mut List<Text>) -> Result<(), NoMemory>
    requires { k < max_dimensions }
    ensures { OnOk result (made.new ≡ made.old ++ (105 ∷ decimal (k + 1)) ∷ []) }
{
    let name = numbered(alloc, b'i', k + 1)?;
    made.push(name)?;
    Ok(())
}

// The names i1, i2 and so on of `n` iterators.
fn names_of(alloc: Global, n: usize) -> Result<List<Text>, NoMemory>
    requires { n ≤ max_dimensions }
    ensures names { IfOk result (λ names. names ≡ default_names 1 n) }
    ensures count { IfOk result (λ names. length names ≡ n) }
{
    let mut made = List::new(alloc);
    for k in 0..n {
        push_name(alloc, k, &mut made)?;
    }
    Ok(made)
}

// The body of statement number `number`, where it has none.
fn default_body(alloc: Global, number: usize, iterators: usize) -> Result<Body, NoMemory>
    requires { iterators ≤ max_dimensions }
    ensures body { IfOk result (λ body. body ≡ body_from number iterators None) }
    ensures count { IfOk result (λ body. length body.iterators ≡ iterators) }
{
    let text = numbered(alloc, b'S', number)?;
    let iterators = names_of(alloc, iterators)?;
    Ok(Body { text, iterators })
}

// The body of a statement.
fn body_of(
    alloc: Global,
    number: usize,
    iterators: usize,
    body: Option<Body>,
) -> Result<Body, NoMemory>
    requires limit { iterators ≤ max_dimensions }
    requires names { IfSome body (λ own. length own.iterators ≡ iterators) }
    ensures body { IfOk result (λ made. made ≡ body_from number iterators body) }
    ensures count { IfOk result (λ made. length made.iterators ≡ iterators) }
{
    match body {
        None => default_body(alloc, number, iterators),
        Some(own) => Ok(own),
    }
}

// The schedule of a scattering in solved form.
fn schedule_from(alloc: Global, relation: &Relation) -> Result<Schedule, NoMemory>
    requires { is_one is_scattering relation.now ≡ true }
    ensures schedule { IfOk result (λ schedule. schedule ≡ schedule_of (the_part relation.now)) }
    ensures printable { IfOk result (HasRelation (the_part relation.now).shape.inputs (the_part relation.now).shape.parameters) }
{
    match relation.parts() {
        [part] => solved_schedule(alloc, part),
        _ => unreachable!(),
    }
}

// An access in solved form.
fn access_from(alloc: Global, access: &(AccessKind, Relation)) -> Result<Access, NoMemory>
    requires { is_one is_access access.now.1 ≡ true }
    ensures access { IfOk result (λ made. made ≡ access_of access.now.0 (the_part access.now.1)) }
    ensures printable { IfOk result (HasAccessRelation (the_part access.now.1).shape.inputs (the_part access.now.1).shape.parameters) }
{
    match access.1.parts() {
        [part] => solved_access(alloc, access.0, part),
        _ => unreachable!(),
    }
}

// Appends an access in solved form.
fn push_access(
    alloc: Global,
    access: &(AccessKind, Relation),
    made: &mut List<Access>,
) -> Result<(), NoMemory>
    requires { is_one is_access access.now.1 ≡ true }
    ensures made { OnOk result (made.new ≡ made.old ++ access_of access.now.0 (the_part access.now.1) ∷ []) }
    ensures printable { OnOk result ((d p : ℕ) → All (HasInputs d p) access.now.1 → All (HasAccessRelation d p) made.old → All (HasAccessRelation d p) made.new) }
{
    let one = access_from(alloc, access)?;
    made.push(one)?;
    Ok(())
}

// The accesses in solved form.
fn accesses_from(
    alloc: Global,
    accesses: &[(AccessKind, Relation)],
) -> Result<List<Access>, NoMemory>
    requires { are_solved accesses.now ≡ true }
    ensures accesses { IfOk result (λ made. made ≡ solved_accesses accesses.now) }
    ensures printable { IfOk result (λ made. (d p : ℕ) → All (λ access. All (HasInputs d p) access.1) accesses.now → All (HasAccessRelation d p) made) }
{
    let mut made = List::with_capacity(alloc, accesses.len())?;
    for access in accesses {
        push_access(alloc, access, &mut made)?;
    }
    Ok(made)
}

// Statement number `number` in solved form. What needs no solving is moved.
fn statement_from(alloc: Global, number: usize, raw: RawStatement) -> Result<Statement, NoMemory>
    requires solved { is_solved raw ≡ true }
    requires names { HasNames raw }
    ensures statement { IfOk result (λ made. made ≡ solved_statement number raw) }
    ensures printable { IfOk result (λ made. (p : ℕ) → HasShapes p raw → HasRelations p made) }
{
    let iterators = iterator_count(&raw);
    let schedule = schedule_from(alloc, &raw.scattering)?;
    let accesses = accesses_from(alloc, raw.accesses.as_slice())?;
    let body = body_of(alloc, number, iterators, raw.body)?;
    Ok(Statement {
        domain: raw.domain,
        schedule,
        accesses,
        body,
        extensions: raw.extensions,
    })
}

// A statement without anything.
fn hollow(alloc: Global) -> RawStatement {
    RawStatement {
        domain: Relation::new(alloc),
        scattering: Relation::new(alloc),
        accesses: List::new(alloc),
        body: None,
        extensions: List::new(alloc),
    }
}

// Takes the statement at place `k` out, and leaves a hollow one there.
fn taken(alloc: Global, raws: &mut List<RawStatement>, k: usize) -> RawStatement
    requires place { k < length raws.old }
    ensures item { slice_get raws.old k ≡ Some result }
    ensures count { length raws.new ≡ length raws.old }
    ensures rest { drop (k + 1) raws.new ≡ drop (k + 1) raws.old }
{
    raws.set(k, hollow(alloc))
}

// Appends statement number `number` in solved form.
fn push_statement(
    alloc: Global,
    number: usize,
    raw: RawStatement,
    made: &mut List<Statement>,
) -> Result<(), NoMemory>
    requires solved { is_solved raw ≡ true }
    requires names { HasNames raw }
    ensures made { OnOk result (made.new ≡ made.old ++ solved_statement number raw ∷ []) }
    ensures printable { OnOk result ((p : ℕ) → HasShapes p raw → All (HasRelations p) made.old → All (HasRelations p) made.new) }
{
    let one = statement_from(alloc, number, raw)?;
    made.push(one)?;
    Ok(())
}

/// The statements in solved form. Each raw one is let go as soon as it is solved.
pub fn statements_from(
    alloc: Global,
    mut raws: List<RawStatement>,
) -> Result<List<Statement>, NoMemory>
    requires solved { first_unsolved 1 raws ≡ None }
    requires names { All HasNames raws }
    ensures statements { IfOk result (λ made. made ≡ solved_statements 1 raws) }
    ensures printable { IfOk result (λ made. (p : ℕ) → All (HasShapes p) raws → All (HasRelations p) made) }
{
    let mut made = List::with_capacity(alloc, raws.len())?;
    for k in 0..raws.len() {
        let raw = taken(alloc, &mut raws, k);
        push_statement(alloc, k + 1, raw, &mut made)?;
    }
    Ok(made)
}

/// The first statement that is not in solved form.
pub fn unsolved_statement(raws: &[RawStatement]) -> Option<Refusal>
    requires { length raws.now ≤ max_statements }
    ensures { result ≡ first_unsolved 1 raws.now }
{
    for k in 0..raws.len() {
        if !is_solved_statement(&raws[k]) {
            return Some(Refusal::NotSolved(k as u32 + 1));
        }
    }
    None
}
