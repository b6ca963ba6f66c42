ghost use Rattle.control.specs.Worked.{WorkedExamples};

// The definitions give the worked examples of the two standards.
#[tactic(auto, unfolding(plans::specs::Rounding::rounded_down, plans::specs::Rounding::half_up, leeway::specs::Leeway::exact_value, sampling::specs::Sequential::word_at, sampling::specs::Sequential::word_from))]
pub fn worked_examples()
    ensures { WorkedExamples }
{}
