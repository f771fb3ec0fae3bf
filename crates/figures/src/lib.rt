// Worked figures: joint statements, proved of the definitions that the contracts of the code
// cite, and the same figures and every refusal run as tests. It stands on every library.
#![tactic(auto)]

ghost use Rattle.std.specs.Prelude.{◌≡◌};
ghost use Rattle.figures.specs.Figures.{Figures};
ghost use Rattle.figures.specs.QuestionFigures.{QuestionFigures};

// Every figure of the joint statement holds; how many there are.
pub fn figures_hold() -> u8
    ensures figures { Figures }
    ensures count { result ≡ 3 }
{
    3
}

// Every figure of the timing tests' joint statement holds; how many there are.
pub fn question_figures_hold() -> u8
    ensures figures { QuestionFigures }
    ensures count { result ≡ 9 }
{
    9
}

#[cfg(test)]
mod draft_tests;
#[cfg(test)]
mod file_tests;
#[cfg(test)]
mod question_tests;
#[cfg(test)]
mod window_tests;
