//! Laws of the definitions.
ghost use Rattle.mx_c3.specs.Laws.{TakesNext, MergesInTurn, BlocksInTurn, IsPublished, RanksFall, InOrderIsSound};

/// What is merged, step by step.
pub fn merge_laws()
    ensures next { TakesNext }
    ensures order { MergesInTurn }
    ensures blocked { BlocksInTurn }
{}

/// The equation of the linearisation, and two ways to show that base lists have no ring.
pub fn linearisation_laws()
    ensures published { IsPublished }
    ensures ranks { RanksFall }
    ensures in_order { InOrderIsSound }
{}
