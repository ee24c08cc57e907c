//! The layers of a path.
ghost use Rattle.std.specs.Prelude.{◌≡◌, ◌<◌, ◌∷◌, [], ◌++◌, length, List as Many, Ok, Result, IfOk, MatchResult};
ghost use Rattle.std.specs.List.{filter_map};
ghost use Rattle.mx_c3.specs.declared.space.SpaceId.{SpaceId};
ghost use Rattle.mx_c3.specs.InOrder.{AllBelow};
ghost use Rattle.mx_c3.specs.Merge.{Answers};
ghost use Rattle.mx_c3.specs.Linearisation.{c3, each};
ghost use Rattle.mx_model.specs.Layers.{id_of, base_lists, child_of, layered, merge_orders, of_children, below, further, at_top, layers};
ghost use Rattle.mx_model.specs.Sound.{IsSound, AreSpaces, HasSpaces, IsBlockedBy, IsFound};
ghost use Rattle.mx_model.specs.Valid.{Valid};

use crate::text::ModelText;
use mx_c3::linearise::linearise;
use mx_c3::lists::Order;
use mx_c3::merge::merge;
use mx_c3::refusal::C3Refusal;
use mx_c3::space::SpaceId;
use mx_list::list::List;
use mx_value::label::Label;
use mx_value::node::Path;
use std::alloc::{AllocError, Global};

/// What a path leads to.
#[derive(Drop)]
pub enum Layered {
    /// A static path: the defined spaces whose members it has, in order.
    Layers(Order),
    /// A static path whose bases have no order.
    NoOrder,
    /// No static path.
    NotStatic,
}

impl ModelText {
    /// What a path leads to, in any text whose bases can be linearised.
    pub fn layered(&self, alloc: Global, path: &Path) -> Result<Layered, AllocError>
        requires { IsSound self.now }
        ensures { IfOk result (λ reached. reached ≡ layers self.now path.now) }
    {
        let Some(first) = path.get(0) else {
            return Ok(Layered::NotStatic);
        };
        further(
            alloc,
            self,
            at_top(alloc, self, first)?,
            &path.as_slice()[1..],
        )
    }

    /// The layers of a static path of a valid text: the defined spaces whose members it has, in order. None where there is
    /// no such path.
    pub fn layers(&self, alloc: Global, path: &Path) -> Result<Option<Order>, AllocError>
        requires { Valid self.now }
        ensures { IfOk result (λ found. IsFound found (layers self.now path.now)) }
    {
        match self.layered(alloc, path)? {
            Layered::Layers(spaces) => Ok(Some(spaces)),
            Layered::NotStatic => Ok(None),
            Layered::NoOrder => unreachable!(),
        }
    }
}

/// What the name of a space at the top leads to.
fn at_top(alloc: Global, text: &ModelText, name: &Label) -> Result<Layered, AllocError>
    requires { IsSound text.now }
    ensures { IfOk result (λ reached. reached ≡ at_top text.now (id_of text.now (name.now ∷ []))) }
{
    let path = path_below(alloc, &[], name)?;
    match text.id_of(&path) {
        Some(s) => of_answer(linearise(alloc, text.base_lists(), s)),
        None => Ok(Layered::NotStatic),
    }
}

/// What these names lead to from there.
fn further(
    alloc: Global,
    text: &ModelText,
    start: Layered,
    names: &[Label],
) -> Result<Layered, AllocError>
    requires sound { IsSound text.now }
    requires spaces { HasSpaces text.now start }
    ensures { IfOk result (λ reached. reached ≡ further text.now start names.now) }
{
    let mut reached = start;
    for name in names {
        reached = below(alloc, text, &reached, name)?;
    }
    Ok(reached)
}

/// What one name further leads to.
fn below(
    alloc: Global,
    text: &ModelText,
    reached: &Layered,
    name: &Label,
) -> Result<Layered, AllocError>
    requires sound { IsSound text.now }
    requires spaces { HasSpaces text.now reached.now }
    ensures { IfOk result (λ further. further ≡ below text.now reached.now name.now) }
{
    let Layered::Layers(spaces) = reached else {
        return Ok(Layered::NotStatic);
    };
    let children = children_of(alloc, text, spaces, name)?;
    of_children(alloc, text, &children)
}

/// The defined children of a name that these spaces have, in their order.
fn children_of(
    alloc: Global,
    text: &ModelText,
    spaces: &Order,
    name: &Label,
) -> Result<Order, AllocError>
    requires { AllBelow (length text.now.spaces) spaces.now }
    ensures { IfOk result
        (λ children. children ≡ filter_map (child_of text.now name.now) spaces.now) }
{
    let mut children = Vec::new(alloc);
    for s in spaces.as_slice() {
        match child_of(alloc, text, *s, name)? {
            Some(child) => children.push(child)?,
            None => {}
        }
    }
    Order::from_vec(alloc, children)
}

/// The defined child of a name that a space has.
pub fn child_of(
    alloc: Global,
    text: &ModelText,
    s: SpaceId,
    name: &Label,
) -> Result<Option<SpaceId>, AllocError>
    requires { s.0 < length text.now.spaces }
    ensures { IfOk result (λ child. child ≡ child_of text.now name.now s) }
{
    let path = path_below(alloc, text.path_of(s).as_slice(), name)?;
    Ok(text.id_of(&path))
}

/// The names of a path and one more.
pub fn path_below(alloc: Global, names: &[Label], last: &Label) -> Result<Path, AllocError>
    ensures { IfOk result (λ path. path ≡ names.now ++ last.now ∷ []) }
{
    let mut copies = Vec::new(alloc);
    for name in names {
        copies.push(name.copy()?)?;
    }
    copies.push(last.copy()?)?;
    List::from_vec(alloc, copies)
}

/// What a path with these children leads to.
fn of_children(alloc: Global, text: &ModelText, children: &Order) -> Result<Layered, AllocError>
    requires sound { IsSound text.now }
    requires spaces { AreSpaces text.now children.now }
    ensures { IfOk result (λ reached. reached ≡ of_children text.now children.now) }
{
    if children.as_slice().is_empty() {
        return Ok(Layered::NotStatic);
    }
    of_answer(merge_orders(alloc, text, children))
}

/// The merge of the orders of these spaces and of their list.
fn merge_orders(alloc: Global, text: &ModelText, spaces: &Order) -> Result<Order, C3Refusal>
    requires sound { IsSound text.now }
    requires spaces { AreSpaces text.now spaces.now }
    ensures { Answers result
        (merge_orders spaces.now (each (c3 (base_lists text.now)) spaces.now)) }
{
    let mut lists = match orders_of(alloc, text, spaces) {
        Ok(orders) => orders,
        Err(refusal) => return Err(refusal),
    };
    lists.push(spaces.copy()?)?;
    merge(alloc, &lists)
}

/// The orders of these spaces.
fn orders_of(alloc: Global, text: &ModelText, spaces: &Order) -> Result<Vec<Order>, C3Refusal>
    requires sound { IsSound text.now }
    requires below { AllBelow (length text.now.spaces) spaces.now }
    ensures { let all = each (c3 (base_lists text.now)) spaces.now in
        MatchResult result (λ orders. all ≡ Ok orders.items) (λ refusal. IsBlockedBy refusal all) }
{
    let mut orders = Vec::new(alloc);
    for s in spaces.as_slice() {
        match linearise(alloc, text.base_lists(), *s) {
            Ok(order) => orders.push(order)?,
            Err(refusal) => return Err(refusal),
        }
    }
    Ok(orders)
}

/// What a path with this order of layers leads to.
fn of_answer(answer: Result<Order, C3Refusal>) -> Result<Layered, AllocError>
    ensures { (order : Result (Many SpaceId) (Many SpaceId)) →
        Answers answer order → IfOk result (λ reached. reached ≡ layered order) }
{
    match answer {
        Ok(order) => Ok(Layered::Layers(order)),
        Err(C3Refusal::NoOrder(_)) => Ok(Layered::NoOrder),
        Err(C3Refusal::NoMemory) => Err(AllocError),
    }
}
