//! The edits of the generated model.
ghost use Rattle.std.specs.Prelude.{◌≡◌, ◌∷◌, [], ◌<◌, ◌≤◌, ◌↔◌, ◌⊎◌, ◌++◌, ◌^◌, pos, IfOk, OnOk, IsErrOf};
ghost use Rattle.mx_gen.specs.Generated as spec;
ghost use Rattle.mx_gen.specs.declared.make.GenRefusal.TheVariants.{NoMemory};

use crate::formula::{f_formula, g_formula, label};
use mx_edit::edit::Edit;
use mx_list::list::List;
use mx_print::value::push_value;
use mx_syntax::stmt::Formula;
use mx_value::label::Label;
use mx_value::node::Path;
use mx_value::value::Value;
use std::alloc::{AllocError, AllocFailed, Global};

/// Why no edits are made.
#[derive(Clone, Copy, Debug, PartialEq, Eq, Drop)]
pub enum GenRefusal {
    /// The number of spaces is not from 1 to 2,000.
    BadSize,
    /// There was not enough memory.
    NoMemory,
}

impl From<AllocError> for GenRefusal {
    ghost from_gives = { λ _ refusal. refusal ≡ NoMemory };

    fn from(_error: AllocError) -> GenRefusal {
        GenRefusal::NoMemory
    }
}

impl<T: Drop> From<AllocFailed<T>> for GenRefusal {
    ghost from_gives = { λ _ refusal. refusal ≡ NoMemory };

    fn from(_error: AllocFailed<T>) -> GenRefusal {
        GenRefusal::NoMemory
    }
}

/// The edits that make a model of `n` spaces from an empty one, in order. BadSize comes exactly where `n` is not from 1
/// to 2,000.
pub fn make(alloc: Global, n: u32, seed: u64) -> Result<Vec<Edit>, GenRefusal>
    ensures edits { IfOk result (λ edits. edits.items ≡ spec.edits_of seed n) }
    ensures bad_size { IsErrOf result GenRefusal.BadSize ↔ (n < 1) ⊎ (2000 < n) }
{
    if n < 1 || n > 2_000 {
        return Err(GenRefusal::BadSize);
    }
    let mut draws = Draws { state: seed };
    let mut edits = Vec::new(alloc);
    for i in 0..n {
        match push_space(alloc, &mut edits, i, &mut draws) {
            Ok(()) => {}
            Err(_) => return Err(GenRefusal::NoMemory),
        }
    }
    return Ok(edits);
}

/// A linear congruence modulo 2^64, of which the upper bits are drawn.
#[derive(Drop)]
struct Draws {
    state: u64,
}

impl Draws {
    /// A number below `k`.
    fn below(&mut self, k: u32) -> u32
        requires { 0 < k }
        ensures state { self.new.state ≡ spec.after self.old.state }
        ensures number { result ≡ spec.drawn (spec.after self.old.state) k }
        ensures below { result < k }
    {
        let product = self.state.wrapping_mul(6_364_136_223_846_793_005);
        self.state = product.wrapping_add(1_442_695_040_888_963_407);
        ((self.state >> 33) % u64::from(k)) as u32
    }
}

/// `S` and the number.
fn space_name(alloc: Global, i: u32) -> Result<Label, AllocError>
    ensures { IfOk result (λ name. name ≡ spec.space_name i) }
{
    let mut bytes = Vec::new(alloc);
    bytes.push(b'S')?;
    push_value(&mut bytes, &Value::Int(i64::from(i)))?;
    label(alloc, bytes.as_slice())
}

fn path_of(alloc: Global, i: u32) -> Result<Path, AllocError>
    ensures { IfOk result (λ path. path ≡ spec.path_of i) }
{
    let names = vec![in alloc; space_name(alloc, i)?]?;
    List::from_vec(alloc, names)
}

/// Adds the edits that make the space of this number.
fn push_space(
    alloc: Global,
    edits: &mut Vec<Edit>,
    i: u32,
    draws: &mut Draws,
) -> Result<(), AllocError>
    ensures state { OnOk result (draws.new.state ≡ spec.after_space i draws.old.state) }
    ensures edits { OnOk result
        (edits.new.items ≡ edits.old.items ++ spec.space_edits i draws.old.state) }
{
    edits.push(Edit::NewSpace {
        parent: List::empty(alloc)?,
        name: space_name(alloc, i)?,
    })?;
    push_bases(alloc, edits, i, draws)?;
    push_cells(alloc, edits, i, draws)
}

/// Adds the base of the space of this number, where it is not the first.
fn push_bases(
    alloc: Global,
    edits: &mut Vec<Edit>,
    i: u32,
    draws: &mut Draws,
) -> Result<(), AllocError>
    ensures state { OnOk result (draws.new.state ≡ spec.after_base i draws.old.state) }
    ensures edits { OnOk result
        (edits.new.items ≡ edits.old.items ++ spec.base_edits i draws.old.state) }
{
    if i == 0 {
        return Ok(());
    }
    let base = path_of(alloc, draws.below(i.min(50)))?;
    let bases = List::from_vec(alloc, vec![in alloc; base]?)?;
    edits.push(Edit::SetBases {
        path: path_of(alloc, i)?,
        bases,
    })?;
    return Ok(());
}

/// Adds the cells of the space of this number.
fn push_cells(
    alloc: Global,
    edits: &mut Vec<Edit>,
    i: u32,
    draws: &mut Draws,
) -> Result<(), AllocError>
    ensures state { OnOk result (draws.new.state ≡ spec.after draws.old.state) }
    ensures edits { OnOk result
        (edits.new.items ≡ edits.old.items ++ spec.cells_edits i draws.old.state) }
{
    if i % 2 == 0 {
        let start = draws.below(1_000);
        push_cell(alloc, edits, i, b"f", f_formula(alloc, i64::from(start))?)?;
        if i == 0 {
            return push_cell(alloc, edits, i, b"g", g_formula(alloc, 3)?);
        }
        return Ok(());
    }
    let factor = 2 + draws.below(7);
    return push_cell(alloc, edits, i, b"g", g_formula(alloc, i64::from(factor))?);
}

/// Adds the definition of cells of the space of this number.
fn push_cell(
    alloc: Global,
    edits: &mut Vec<Edit>,
    i: u32,
    name: &[u8],
    formula: Formula,
) -> Result<(), AllocError>
    ensures { OnOk result
        (edits.new.items ≡ edits.old.items ++ spec.set_cells i name.now formula ∷ []) }
{
    edits.push(Edit::SetCells {
        path: path_of(alloc, i)?,
        name: label(alloc, name)?,
        formula,
    })?;
    Ok(())
}
