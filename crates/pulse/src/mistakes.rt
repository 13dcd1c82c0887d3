ghost use Rattle.pulse.specs.Mistakes.{MistakesExcluded};

// On a ring of three houses, whatever the quantity: a response that comes before the house's request is kept, a house
// that was not called does not answer, and at capacity 1 a request goes before a response.
pub fn mistakes_are_excluded<V, W, F>()
    ensures { MistakesExcluded V W F }
{}
