ghost use Rattle.pulse.specs.Law.{LawOfRuns};
ghost use Rattle.pulse.specs.Steps.{AnyCallsRun};

// Any calls with any inputs, from any row, are those of some run.
pub fn any_calls_run<V, W, F>()
    ensures { AnyCallsRun V W F }
{}

// The law of runs, for every kind of value, word and figures.
pub fn runs_are_lawful<V, W, F>()
    ensures { LawOfRuns V W F }
{}
