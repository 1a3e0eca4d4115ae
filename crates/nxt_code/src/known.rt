// What is found of the shapes that words name, once for the same words.

ghost use Rattle.std.specs.Prelude.{◌≡◌, IfOk, OnOk};
ghost use Rattle.std.specs.BTreeMap.{get};
ghost use Rattle.nxt_types.specs.Shapes.{Members, convertible, has_list as has_list_shape};
ghost use Rattle.nxt_types.specs.OperandRules.{element_of, goes_into as goes_into_list};
ghost use Rattle.nxt_code.specs.Inside.KnownShapes.{shape_by, pair_cmp, IsKnown};

use crate::operands::named;
use crate::shapes;
use nxt_types::NoMemory;
use nxt_types::toc::Toc;
use std::alloc::Global;
use std::collections::BTreeMap;

/// What is found of two shapes, by the words that name them.
type Pairs = BTreeMap<(u16, u16), bool>;

/// What is found of the shapes that words name, and kept for the next time.
#[derive(Drop)]
pub struct Known {
    /// Whether a value of the second can be stored in the first.
    wholes: Pairs,
    /// Whether a value of the second can be stored in an element of the first.
    elements: Pairs,
    /// Whether an element of the second can be stored in the first.
    taken: Pairs,
    /// Whether some list stands in it.
    lists: BTreeMap<u16, bool>,
}

impl Known {
    /// Nothing is found yet.
    pub fn new(alloc: Global) -> Known
        ensures { (ss : Members) → IsKnown ss result }
    {
        Known {
            wholes: BTreeMap::new(alloc),
            elements: BTreeMap::new(alloc),
            taken: BTreeMap::new(alloc),
            lists: BTreeMap::new(alloc),
        }
    }

    /// Whether a value of the one can be stored in the other.
    pub fn converts(&mut self, toc: &Toc, to: u16, from: u16) -> Result<bool, NoMemory>
        requires { IsKnown toc.now.shapes self.old }
        ensures answer { IfOk result (λ b. b ≡ convertible (shape_by toc.now.shapes to) (shape_by toc.now.shapes from)) }
        ensures known { OnOk result (IsKnown toc.now.shapes self.new) }
    {
        if let Some(answer) = found(&self.wholes, to, from) {
            return Ok(answer);
        }
        let answer = shapes::converts(named(toc, to), named(toc, from));
        let _none = self.wholes.insert((to, from), answer)?;
        Ok(answer)
    }

    /// Whether a value can be stored in an element of the list.
    pub fn is_element(&mut self, toc: &Toc, list: u16, from: u16) -> Result<bool, NoMemory>
        requires { IsKnown toc.now.shapes self.old }
        ensures answer { IfOk result (λ b. b ≡ convertible (element_of (shape_by toc.now.shapes list)) (shape_by toc.now.shapes from)) }
        ensures known { OnOk result (IsKnown toc.now.shapes self.new) }
    {
        if let Some(answer) = found(&self.elements, list, from) {
            return Ok(answer);
        }
        let answer = shapes::converts(shapes::element(named(toc, list)), named(toc, from));
        let _none = self.elements.insert((list, from), answer)?;
        Ok(answer)
    }

    /// Whether an element of the list can be stored in it.
    pub fn takes_element(&mut self, toc: &Toc, to: u16, list: u16) -> Result<bool, NoMemory>
        requires { IsKnown toc.now.shapes self.old }
        ensures answer { IfOk result (λ b. b ≡ convertible (shape_by toc.now.shapes to) (element_of (shape_by toc.now.shapes list))) }
        ensures known { OnOk result (IsKnown toc.now.shapes self.new) }
    {
        if let Some(answer) = found(&self.taken, to, list) {
            return Ok(answer);
        }
        let answer = shapes::converts(named(toc, to), shapes::element(named(toc, list)));
        let _none = self.taken.insert((to, list), answer)?;
        Ok(answer)
    }

    /// Whether a value is an element for a list, or a list that converts to it.
    pub fn goes_into(&mut self, toc: &Toc, list: u16, from: u16) -> Result<bool, NoMemory>
        requires { IsKnown toc.now.shapes self.old }
        ensures answer { IfOk result (λ b. b ≡ goes_into_list (shape_by toc.now.shapes list) (shape_by toc.now.shapes from)) }
        ensures known { OnOk result (IsKnown toc.now.shapes self.new) }
    {
        Ok(self.is_element(toc, list, from)? || self.converts(toc, list, from)?)
    }

    /// Whether some list stands in it.
    pub fn has_list(&mut self, toc: &Toc, word: u16) -> Result<bool, NoMemory>
        requires { IsKnown toc.now.shapes self.old }
        ensures answer { IfOk result (λ b. b ≡ has_list_shape (shape_by toc.now.shapes word)) }
        ensures known { OnOk result (IsKnown toc.now.shapes self.new) }
    {
        if let Some(answer) = self.lists.get(&word).copied() {
            return Ok(answer);
        }
        let answer = shapes::has_list(named(toc, word));
        let _none = self.lists.insert(word, answer)?;
        Ok(answer)
    }
}

fn found(pairs: &Pairs, first: u16, second: u16) -> Option<bool>
    ensures { result ≡ get pair_cmp pairs.now (first, second) }
{
    pairs.get(&(first, second)).copied()
}
