//! The samples by their names.
ghost use Rattle.std.specs.Prelude.{◌≡◌, ◌↔◌, map, codes, Some};
ghost use Rattle.mx_life.specs.declared.project.Product.TheVariants.{Term, Savings};
ghost use Rattle.mx_life.specs.Samples as spec;

use crate::files::{
    SAVINGS_MODEL, SAVINGS_REFS, SAVINGS_SPACE, SPACE_BASE, TABLE_DISC, TABLE_MORT, TERM_MODEL,
    TERM_REFS, TERM_SPACE,
};

/// Files of a project: each with its name and its bytes.
pub type Files = [(&'static str, &'static [u8]); 7];

fn table_mort() -> &'static [u8]
    ensures { result.now ≡ spec.text spec.table_mort }
{
    TABLE_MORT
}

fn table_disc() -> &'static [u8]
    ensures { result.now ≡ spec.text spec.table_disc }
{
    TABLE_DISC
}

fn space_base() -> &'static [u8]
    ensures { result.now ≡ spec.text spec.space_base }
{
    SPACE_BASE
}

fn term_model() -> &'static [u8]
    ensures { result.now ≡ spec.text (spec.model (codes "Term")) }
{
    TERM_MODEL
}

fn space_term() -> &'static [u8]
    ensures { result.now ≡ spec.text spec.space_term }
{
    TERM_SPACE
}

fn term_refs() -> &'static [u8]
    ensures { result.now ≡ spec.text (spec.refs (codes "Term") spec.term_references) }
{
    TERM_REFS
}

fn savings_model() -> &'static [u8]
    ensures { result.now ≡ spec.text (spec.model (codes "Savings")) }
{
    SAVINGS_MODEL
}

fn space_savings() -> &'static [u8]
    ensures { result.now ≡ spec.text spec.space_savings }
{
    SAVINGS_SPACE
}

fn savings_refs() -> &'static [u8]
    ensures { result.now ≡ spec.text (spec.refs (codes "Savings") spec.savings_references) }
{
    SAVINGS_REFS
}

fn term_s() -> Files
    ensures { map (λ file. (file.0.now, file.1.now)) result ≡ spec.term_s }
{
    [
        ("model.mx", term_model()),
        ("table_mort.csv", table_mort()),
        ("table_disc.csv", table_disc()),
        ("space_Base.mx", space_base()),
        ("space_Term.mx", space_term()),
        ("refs.mx", term_refs()),
        ("inputs.mx", b""),
    ]
}

fn savings_s() -> Files
    ensures { map (λ file. (file.0.now, file.1.now)) result ≡ spec.savings_s }
{
    [
        ("model.mx", savings_model()),
        ("table_mort.csv", table_mort()),
        ("table_disc.csv", table_disc()),
        ("space_Base.mx", space_base()),
        ("space_Savings.mx", space_savings()),
        ("refs.mx", savings_refs()),
        ("inputs.mx", b""),
    ]
}

/// The product of a sample project.
#[derive(Clone, Copy, Debug, PartialEq, Eq, Drop)]
pub enum Product {
    /// The term assurance, `term_s`.
    Term,
    /// The single-premium savings product, `savings_s`.
    Savings,
}

impl Product {
    /// The files, in the order in which a project is read.
    pub fn files(self) -> Files
        ensures { map (λ file. (file.0.now, file.1.now)) result ≡ spec.files_of self }
    {
        match self {
            Product::Term => term_s(),
            Product::Savings => savings_s(),
        }
    }
}

/// The sample of this name. None comes exactly for another name.
pub fn sample(name: &str) -> Option<Product>
    ensures term { (result ≡ Some Term) ↔ (name.now ≡ codes "term_s") }
    ensures savings { (result ≡ Some Savings) ↔ (name.now ≡ codes "savings_s") }
{
    if name == "term_s" {
        return Some(Product::Term);
    }
    if name == "savings_s" {
        return Some(Product::Savings);
    }
    return None;
}
