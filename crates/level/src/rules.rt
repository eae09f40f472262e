// The fourteen rules of document 01, each a method that hands the record and the effect back where the rule applies.
ghost use Rattle.std.specs.Prelude.{◌≡◌, ◌&&◌, List, ℕ, ◌≤◌, ◌<◌, leb, ltb, slice_set, true};
ghost use Rattle.message.specs.Message.{none_value};
ghost use Rattle.level.specs.Level.{not_yet, value_count, with_output};
ghost use Rattle.level.specs.Inner.{InLimits};
ghost use Rattle.level.specs.Rules;
ghost use Rattle.level.specs.Rules.{Quiet};
ghost use Rattle.level.specs.Tie.{as_level, as_applied};

use crate::{Applied, Context, Effect, Level, NO_OUTPUT, NONE, NOT_YET};
use level_counts::Heard;
use message::Body;

// What is not there yet is NOT_YET or NO_OUTPUT and no None: why stands at `Level` (`party_one`).
impl Level {
    // First echo of the port.
    #[tactic(auto, unfolding(crate::specs::Rules::rule1))]
    pub fn rule1(self, c: Context) -> Option<Applied>
        ensures { (s : List ℕ) → as_applied s self result ≡ Rules.rule1 c (as_level s self) }
    {
        if self.echoed_port {
            return None;
        }
        let level = Level {
            echoed_port: true,
            ..self
        };
        let effect = Effect::Send(Body::FirstEcho(c.port));
        Some(Applied { level, effect })
    }

    // First echo of none.
    #[tactic(auto, unfolding(crate::specs::Rules::rule2, crate::specs::Counts::other_echoes, crate::specs::Level::senders, level_counts::specs::Places::slot))]
    pub fn rule2(self, heard: &Heard, c: Context) -> Option<Applied>
        requires { InLimits c (as_level heard.now self) }
        ensures { as_applied heard.now self result ≡ Rules.rule2 c (as_level heard.now self) }
    {
        if self.echoed_none || !level_counts_first::none_due(c.counting(), heard, c.port) {
            return None;
        }
        let level = Level {
            echoed_none: true,
            ..self
        };
        let effect = Effect::Send(Body::FirstEcho(NONE));
        Some(Applied { level, effect })
    }

    // First proposal.
    #[tactic(auto, unfolding(crate::specs::Rules::rule3, crate::specs::Counts::may_propose, crate::specs::Level::senders, level_counts::specs::Places::slot))]
    pub fn rule3(self, heard: &Heard, c: Context) -> Option<Applied>
        requires { InLimits c (as_level heard.now self) }
        ensures { as_applied heard.now self result ≡ Rules.rule3 c (as_level heard.now self) }
    {
        if self.proposal != NOT_YET {
            return None;
        }
        let v = level_counts_first::proposal(c.counting(), heard)?;
        let level = Level {
            proposal: v,
            ..self
        };
        let effect = Effect::Send(Body::FirstProposal(v));
        Some(Applied { level, effect })
    }

    // First result.
    #[tactic(auto, using(crate::proofs::Splits::split_by_sets), unfolding(crate::specs::Rules::rule4, crate::specs::Counts::proposed, crate::specs::Level::senders, level_counts::specs::Places::slot))]
    pub fn rule4(self, heard: &Heard, c: Context) -> Option<Applied>
        requires { InLimits c (as_level heard.now self) }
        ensures { as_applied heard.now self result ≡ Rules.rule4 c (as_level heard.now self) }
    {
        if self.first != NOT_YET {
            return None;
        }
        let w = level_counts_first_result::result(c.counting(), heard)?;
        let level = Level { first: w, ..self };
        let effect = Effect::Quiet;
        Some(Applied { level, effect })
    }

    // A second echo of w.
    fn second_echo(self, w: u8) -> Applied
        requires { w < value_count }
        ensures { result ≡ record { level = record self { echoed = slice_set self.echoed w true }; effect = Effect.Send (Body.SecondEcho w) } }
    {
        let mut level = self;
        level.echoed[usize::from(w)] = true;
        let effect = Effect::Send(Body::SecondEcho(w));
        Applied { level, effect }
    }

    // Second echo of the first result.
    #[tactic(auto, unfolding(crate::specs::Rules::rule5))]
    pub fn rule5(self, c: Context) -> Option<Applied>
        requires { self.first ≤ not_yet }
        ensures { (s : List ℕ) → as_applied s self result ≡ Rules.rule5 c (as_level s self) }
    {
        let w = self.first;
        if w == NOT_YET || self.echoed[usize::from(w)] {
            return None;
        }
        Some(self.second_echo(w))
    }

    // Second echo of what t+1 boards echoed.
    #[tactic(auto, unfolding(crate::specs::Rules::rule6, crate::specs::Counts::echoed_by, crate::specs::Level::senders, level_counts::specs::Places::slot))]
    pub fn rule6(self, heard: &Heard, c: Context) -> Option<Applied>
        requires { InLimits c (as_level heard.now self) }
        ensures { as_applied heard.now self result ≡ Rules.rule6 c (as_level heard.now self) }
    {
        if self.first == NOT_YET {
            return None;
        }
        let v = level_counts_second::echo(c.counting(), heard, &self.echoed)?;
        Some(self.second_echo(v))
    }

    // Second proposal.
    #[tactic(auto, unfolding(crate::specs::Rules::rule7, crate::specs::Counts::echoed_by, crate::specs::Level::senders, level_counts::specs::Places::slot))]
    pub fn rule7(self, heard: &Heard, c: Context) -> Option<Applied>
        requires { InLimits c (as_level heard.now self) }
        ensures { as_applied heard.now self result ≡ Rules.rule7 c (as_level heard.now self) }
    {
        if self.first == NOT_YET || self.second_proposal != NOT_YET {
            return None;
        }
        let w = level_counts_second::proposal(c.counting(), heard)?;
        let level = Level {
            second_proposal: w,
            ..self
        };
        let effect = Effect::Send(Body::SecondProposal(w));
        Some(Applied { level, effect })
    }

    // The result.
    #[tactic(auto, unfolding(crate::specs::Rules::rule8, crate::specs::Counts::second_proposed, crate::specs::Counts::echoed_by, crate::specs::Counts::echoed_values, crate::specs::Level::senders, level_counts::specs::Places::slot))]
    pub fn rule8(self, heard: &Heard, c: Context) -> Option<Applied>
        requires { InLimits c (as_level heard.now self) }
        ensures { as_applied heard.now self result ≡ Rules.rule8 c (as_level heard.now self) }
    {
        if self.first == NOT_YET || self.result != NOT_YET {
            return None;
        }
        let g = level_counts_second_result::result(c.counting(), heard)?;
        let level = Level {
            result: g.value,
            sure: g.sure,
            ..self
        };
        let effect = Effect::Quiet;
        Some(Applied { level, effect })
    }

    // The output x, if there is none yet.
    fn answer(self, x: base::Position) -> Option<Applied>
        ensures { (s : List ℕ) → as_applied s self result ≡ Rules.when (Rules.unanswered (as_level s self)) (as_level s self) (Rules.does (with_output (as_level s self) x) Quiet) }
    {
        if self.output != NO_OUTPUT {
            return None;
        }
        let level = Level { output: x, ..self };
        let effect = Effect::Quiet;
        Some(Applied { level, effect })
    }

    // The centre as output, after result 0.
    #[tactic(auto, unfolding(crate::specs::Rules::rule9))]
    pub fn rule9(self, c: Context) -> Option<Applied>
        ensures { (s : List ℕ) → as_applied s self result ≡ Rules.rule9 c (as_level s self) }
    {
        if self.result != 0 {
            return None;
        }
        self.answer(c.centre)
    }

    // Is the result a value of 1 or more?
    fn aside(self) -> bool
        ensures { result ≡ (leb 1 self.result && ltb self.result none_value) }
    {
        1 <= self.result && self.result < NONE
    }

    // The next level entered, after a result of 1 or more.
    #[tactic(auto, unfolding(crate::specs::Rules::rule10))]
    pub fn rule10(self, c: Context) -> Option<Applied>
        ensures { (s : List ℕ) → as_applied s self result ≡ Rules.rule10 c (as_level s self) }
    {
        if !self.aside() || c.next_entered {
            return None;
        }
        let side = self.result;
        let effect = if self.sure {
            Effect::Enter {
                side,
                keep: c.port == side,
            }
        } else {
            Effect::SendEnter { side }
        };
        let level = self;
        Some(Applied { level, effect })
    }

    // The centre as output and told, after result none.
    #[tactic(auto, unfolding(crate::specs::Rules::rule11))]
    pub fn rule11(self, c: Context) -> Option<Applied>
        ensures { (s : List ℕ) → as_applied s self result ≡ Rules.rule11 c (as_level s self) }
    {
        if self.result != NONE || self.told_centre {
            return None;
        }
        let output = if self.output == NO_OUTPUT {
            c.centre
        } else {
            self.output
        };
        let level = Level {
            told_centre: true,
            output,
            ..self
        };
        let effect = Effect::Send(Body::Centre);
        Some(Applied { level, effect })
    }

    // The next level entered, by t+1 side messages.
    #[tactic(auto, unfolding(crate::specs::Rules::rule12, crate::specs::Counts::sided, crate::specs::Level::senders, level_counts::specs::Places::slot))]
    pub fn rule12(self, heard: &Heard, c: Context) -> Option<Applied>
        requires { InLimits c (as_level heard.now self) }
        ensures { as_applied heard.now self result ≡ Rules.rule12 c (as_level heard.now self) }
    {
        if self.result != NONE || c.next_entered {
            return None;
        }
        let side = level_counts_leave::side(c.counting(), heard)?;
        let level = self;
        let effect = Effect::Enter { side, keep: false };
        Some(Applied { level, effect })
    }

    // The centre as output, by t+1 centre messages.
    #[tactic(auto, unfolding(crate::specs::Rules::rule13, crate::specs::Level::senders, level_counts::specs::Places::slot))]
    pub fn rule13(self, heard: &Heard, c: Context) -> Option<Applied>
        requires { InLimits c (as_level heard.now self) }
        ensures { as_applied heard.now self result ≡ Rules.rule13 c (as_level heard.now self) }
    {
        if !level_counts_leave::centre_due(c.counting(), heard) {
            return None;
        }
        self.answer(c.centre)
    }

    // The next level's output.
    #[tactic(auto, unfolding(crate::specs::Rules::rule14))]
    pub fn rule14(self, c: Context) -> Option<Applied>
        ensures { (s : List ℕ) → as_applied s self result ≡ Rules.rule14 c (as_level s self) }
    {
        if !self.aside() || c.next_output == NO_OUTPUT {
            return None;
        }
        self.answer(c.next_output)
    }
}
