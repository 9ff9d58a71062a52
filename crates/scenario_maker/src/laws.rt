//! What the generator gives first, by evaluation.
ghost use Rattle.scenario_maker.specs.Firsts.{FirstNumbers, FirstSites};

/// From 1 the generator goes on with 7806831264735756412, and the first two sites that are drawn from 1 are these.
pub fn first_numbers()
    ensures numbers { FirstNumbers }
    ensures sites { FirstSites }
{}
