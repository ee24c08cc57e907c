//! Laws of the definitions.
ghost use Rattle.mx_paths.specs.Kept.{LayersStay, TableStays, WalkStays};

/// A text whose spaces have the same paths and bases has the same layers, so its table can be shared, for proofs. Does nothing
/// when it runs.
pub fn sharing_laws()
    ensures layers { LayersStay }
    ensures table { TableStays }
    ensures walk { WalkStays }
{}
