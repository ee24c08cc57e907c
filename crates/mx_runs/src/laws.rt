//! Laws over the definitions. Each is proved as what a function ensures that does nothing.
ghost use Rattle.mx_runs.specs.Laws.{OneMeaning, InputIsItsValue, Agreement, KeysSupport, KeyAgreement, OneLastAsk, OneRing, RingIsLost};

/// What a node means and does depends on its support alone, for a node with a value on the keys of its support, and is
/// one; so are its stuck chain and its ring.
pub fn laws()
    ensures one_meaning { OneMeaning }
    ensures input_is_its_value { InputIsItsValue }
    ensures agreement { Agreement }
    ensures keys_support { KeysSupport }
    ensures key_agreement { KeyAgreement }
    ensures one_last_ask { OneLastAsk }
    ensures one_ring { OneRing }
    ensures ring_is_lost { RingIsLost }
{}
