//! The beta vectors of a SCoP's statements as a tree of loops.

ghost use Rattle.std.specs.Prelude.{◌≡◌, ◌+◌, ◌-◌, ◌<◌, ◌≤◌, ◌^◌, Ok, length, slice_get, OnOk, OnErr, IfOk, IfErr, OnSome};
ghost use Rattle.std.specs.Option.{option_copied};
ghost use Rattle.beta_tree.specs.Vectors.{children_of, dense_of, IsTree, LongerUnder, NoneEmpty, PrefixFree};
ghost use Rattle.beta_tree.specs.Answers.{HasCause, fission_answer, fuse_answer, reorder_answer, level_answer, leaf_answer};

use crate::copies::next_sibling;
use crate::looks::{count_children, is_leaf, is_permutation, is_under, split_prefix};
use crate::rebuilds::{join_all, level_all, reorder_all, split_all, split_leaves};
use crate::refusals::BetaFail;
use row_core::{Coeff, dense_vectors};
use std::alloc::Global;
use std::marker::Model;
use suite_base::{List, NoMemory};

/// The beta vectors of the statements, in the statements' order. Contracts see the list of vectors,
/// which is dense, with none empty and none a prefix of another.
#[derive(Debug, Drop)]
pub struct Betas {
    vectors: List<List<u32>>,
}

impl Model for Betas {
    ghost use Rattle.std.specs.Prelude.{List, ℕ};
    ghost use Rattle.beta_tree.specs.Vectors.{IsTree};

    ghost Value = { List (List ℕ) };

    ghost view = { λ b. b.vectors };

    ghost invariant = { λ b. IsTree b.vectors };
}

impl Betas {
    /// The vectors numbered densely: entry `k` of a vector becomes the number of distinct lesser values
    /// at place `k` among the vectors that agree with it before `k`.
    pub fn dense(alloc: Global, vectors: &List<List<Coeff>>) -> Result<Betas, NoMemory>
        requires few { length vectors.now < 2 ^ 32 }
        requires filled { NoneEmpty vectors.now }
        requires free { PrefixFree vectors.now }
        ensures ok { IfOk result (λ betas. betas ≡ dense_of vectors.now) }
        ensures tree { IfOk result (λ betas. IsTree betas) }
    {
        let numbered = dense_vectors(alloc, vectors)?;
        Ok(Betas { vectors: numbered })
    }

    /// The number of vectors.
    pub fn len(&self) -> usize
        ensures count { result ≡ length self.now }
        ensures tree { IsTree self.now }
    {
        self.vectors.len()
    }

    /// The vector at place `k`, from 0; `None` exactly where `k` is not below the length.
    pub fn vector(&self, k: usize) -> Option<&[u32]>
        ensures value { option_copied result ≡ slice_get self.now k }
        ensures within { OnSome result (k < length self.now) }
    {
        match self.vectors.get(k) {
            Some(vector) => Some(vector.as_slice()),
            None => None,
        }
    }

    /// The number of children of `prefix`: of the distinct next entries of the vectors that begin with
    /// it.
    pub fn children(&self, prefix: &[u32]) -> usize
        ensures { result ≡ children_of prefix.now self.now }
    {
        count_children(&self.vectors, prefix)
    }

    /// The children of the loop `prefix` from number `first` on become the children of a new loop right
    /// after it. Later siblings of `prefix` move up by one.
    ///
    /// `NoBeta` where no vector begins with `prefix`, then `NotALoop` where `prefix` is no loop, then
    /// `BadArgument` where `first` is not from 1 to the number of children minus 1. A refused call
    /// leaves the vectors as they were.
    pub fn fission(&mut self, prefix: &[u32], first: u32) -> Result<(), BetaFail>
        ensures ok { OnOk result (fission_answer prefix.now first self.old ≡ Ok self.new) }
        ensures cause { IfErr result (λ e. HasCause e (fission_answer prefix.now first self.old)) }
        ensures kept { OnErr result (self.new ≡ self.old) }
        ensures tree { IsTree self.new }
    {
        if !is_under(&self.vectors, prefix) {
            return Err(BetaFail::NoBeta);
        }
        let Some((siblings, p)) = split_prefix(prefix) else {
            return Err(BetaFail::NotALoop);
        };
        if is_leaf(&self.vectors, prefix) {
            return Err(BetaFail::NotALoop);
        }
        if first == 0 || first as usize >= count_children(&self.vectors, prefix) {
            return Err(BetaFail::BadArgument);
        }
        self.vectors = split_all(&self.vectors, siblings, p, first)?;
        Ok(())
    }

    /// The children of the sibling right after the loop `prefix` follow the children of `prefix`. Later
    /// siblings move down by one.
    ///
    /// `NoBeta` where no vector begins with `prefix`, or none with the sibling after it, then
    /// `NotALoop` where one of the two is no loop. A refused call leaves the vectors as they were.
    pub fn fuse(&mut self, prefix: &[u32]) -> Result<(), BetaFail>
        ensures ok { OnOk result (fuse_answer prefix.now self.old ≡ Ok self.new) }
        ensures cause { IfErr result (λ e. HasCause e (fuse_answer prefix.now self.old)) }
        ensures kept { OnErr result (self.new ≡ self.old) }
        ensures tree { IsTree self.new }
    {
        if !is_under(&self.vectors, prefix) {
            return Err(BetaFail::NoBeta);
        }
        let Some((siblings, p)) = split_prefix(prefix) else {
            return Err(BetaFail::NotALoop);
        };
        let next = next_sibling(self.vectors.allocator(), siblings, p)?;
        if !is_under(&self.vectors, next.as_slice()) {
            return Err(BetaFail::NoBeta);
        }
        if is_leaf(&self.vectors, prefix) {
            return Err(BetaFail::NotALoop);
        }
        if is_leaf(&self.vectors, next.as_slice()) {
            return Err(BetaFail::NotALoop);
        }
        let count = count_children(&self.vectors, prefix) as u32;
        self.vectors = join_all(&self.vectors, siblings, p, count)?;
        Ok(())
    }

    /// The children of `prefix` come into the order that `order` lists: entry `j` is the old number of
    /// the child that gets number `j`.
    ///
    /// `NoBeta` where no vector begins with `prefix`, then `NotALoop` where a vector equals it, then
    /// `BadArgument` where `order` doesn't have each number below the number of children once. A
    /// refused call leaves the vectors as they were.
    pub fn reorder(&mut self, prefix: &[u32], order: &[u32]) -> Result<(), BetaFail>
        ensures ok { OnOk result (reorder_answer prefix.now order.now self.old ≡ Ok self.new) }
        ensures cause { IfErr result (λ e. HasCause e (reorder_answer prefix.now order.now self.old)) }
        ensures kept { OnErr result (self.new ≡ self.old) }
        ensures tree { IsTree self.new }
    {
        if !is_under(&self.vectors, prefix) {
            return Err(BetaFail::NoBeta);
        }
        if is_leaf(&self.vectors, prefix) {
            return Err(BetaFail::NotALoop);
        }
        let count = count_children(&self.vectors, prefix);
        if !is_permutation(self.vectors.allocator(), order, count)? {
            return Err(BetaFail::BadArgument);
        }
        self.vectors = reorder_all(&self.vectors, prefix, order)?;
        Ok(())
    }

    /// A new loop with the one child 0 at place `level`, from 0, of each vector that begins with
    /// `prefix`: a 0 comes before its entry there.
    ///
    /// `NoBeta` where no vector begins with `prefix`. A refused call leaves the vectors as they were.
    pub fn insert_level(&mut self, prefix: &[u32], level: usize) -> Result<(), BetaFail>
        requires below { length prefix.now ≤ level }
        requires longer { LongerUnder prefix.now level self.old }
        ensures ok { OnOk result (level_answer prefix.now level self.old ≡ Ok self.new) }
        ensures cause { IfErr result (λ e. HasCause e (level_answer prefix.now level self.old)) }
        ensures kept { OnErr result (self.new ≡ self.old) }
        ensures tree { IsTree self.new }
    {
        if !is_under(&self.vectors, prefix) {
            return Err(BetaFail::NoBeta);
        }
        self.vectors = level_all(&self.vectors, prefix, level)?;
        Ok(())
    }

    /// A new vector after `vector`, with a last entry one higher. Later siblings of `vector` move up by
    /// one, with all that stands below them.
    ///
    /// `NoBeta` where no vector begins with `vector`, then `BadArgument` where none equals it. A
    /// refused call leaves the vectors as they were.
    pub fn split_leaf(&mut self, vector: &[u32]) -> Result<(), BetaFail>
        requires { length self.old < 2 ^ 32 - 1 }
        ensures ok { OnOk result (leaf_answer vector.now self.old ≡ Ok self.new) }
        ensures cause { IfErr result (λ e. HasCause e (leaf_answer vector.now self.old)) }
        ensures kept { OnErr result (self.new ≡ self.old) }
        ensures tree { IsTree self.new }
    {
        if !is_under(&self.vectors, vector) {
            return Err(BetaFail::NoBeta);
        }
        if !is_leaf(&self.vectors, vector) {
            return Err(BetaFail::BadArgument);
        }
        let Some((siblings, p)) = split_prefix(vector) else {
            return Err(BetaFail::BadArgument);
        };
        self.vectors = split_leaves(&self.vectors, vector, siblings, p)?;
        Ok(())
    }
}
