//! What items answer under a function with two values.
ghost use Rattle.std.specs.Prelude.{◌≡◌, ℕ, ◌+◌, ◌≤◌};
ghost use Rattle.apl_pool.specs.declared.kernel.TheConstants.{MOST_PLACES};
ghost use Rattle.apl_scalar.specs.Scalar.{bit};
ghost use Rattle.apl_summary.specs.Answers.{answers_of_one, answers_of_both, whole_answer, answer_to, two_valued_outcome};

use apl_pool::Fault;
use apl_scalar::function_types::Function;

/// How many items there are, the last of them, and what those to its left answer for its results 0 and 1.
#[derive(Clone, Copy)]
pub struct Answers {
    pub count: u32,
    pub last: i64,
    pub for_zero: Result<bool, Fault>,
    pub for_one: Result<bool, Fault>,
}

/// 0 or 1.
#[inline(always)]
pub fn number(answer: bool) -> i64
    ensures { result ≡ bit answer }
{
    if answer { 1 } else { 0 }
}

impl Answers {
    /// The answers of one item.
    pub fn one(item: i64) -> Answers
        ensures { result ≡ answers_of_one item }
    {
        Answers {
            count: 1,
            last: item,
            for_zero: Ok(false),
            for_one: Ok(true),
        }
    }

    /// What all items answer for a number.
    pub fn whole<P: Function>(&self, right: i64) -> Result<bool, Fault>
        ensures { result ≡ whole_answer P.FUNCTION self.now right }
    {
        match P::apply(self.last, right) {
            Ok(value) => {
                if value == 1 {
                    self.for_one
                } else {
                    self.for_zero
                }
            }
            Err(fault) => Err(fault),
        }
    }

    /// What all items answer for the answer of those on their right.
    fn answer_to<P: Function>(&self, answer: Result<bool, Fault>) -> Result<bool, Fault>
        ensures { result ≡ answer_to P.FUNCTION self.now answer }
    {
        match answer {
            Ok(value) => self.whole::<P>(number(value)),
            Err(fault) => Err(fault),
        }
    }

    /// The answers of these items followed by those of `right`.
    pub fn joined<P: Function>(&self, right: &Answers) -> Answers
        requires { self.now.count + right.now.count ≤ MOST_PLACES }
        ensures { result ≡ answers_of_both P.FUNCTION self.now right.now }
    {
        Answers {
            count: self.count + right.count,
            last: right.last,
            for_zero: self.answer_to::<P>(right.for_zero),
            for_one: self.answer_to::<P>(right.for_one),
        }
    }

    /// What the items do to the number that comes in.
    pub fn apply<P: Function>(&self, right: i64) -> Result<i64, Fault>
        ensures { result ≡ two_valued_outcome P.FUNCTION self.now right }
    {
        match self.whole::<P>(right) {
            Ok(value) => Ok(number(value)),
            Err(fault) => Err(fault),
        }
    }
}
