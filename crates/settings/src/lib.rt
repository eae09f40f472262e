// Questions 1 to 3: a board's settings.
#![tactic(auto)]

ghost use Rattle.std.specs.Prelude.{◌≡◌};
ghost use Rattle.base.specs.Verdict.{fault_number};
ghost use Rattle.settings.specs.Settings.{settings_fault};

use base::Question;

// The first of questions 1 to 3 that the settings fail is the error.
pub fn check(n: u32, t: u32, own: u32) -> Result<(), Question>
    ensures { fault_number result ≡ settings_fault n t own }
{
    if n < 1 || base::MAX_BOARDS < n {
        return Err(Question::Boards);
    }
    if u64::from(n) <= 3 * u64::from(t) {
        return Err(Question::FaultyBoards);
    }
    if n <= own {
        return Err(Question::OwnNumber);
    }
    Ok(())
}
