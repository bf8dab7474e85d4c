// What a call answers: what it was asked for, or a refusal. How an answer is told by number and place is in specs/document/Outcome.antt, and which of several
// refusals is given in specs/document/Table.antt.
#![tactic(auto)]

ghost use Rattle.std.specs.Prelude.{[], ◌∷◌};
ghost use Rattle.refusal.specs.document.Table.{row3, row15};
ghost use Rattle.refusal.specs.Checks.{Answers};

// A refusal: the number of its row in document 01's table, and the place. The row stays a number, as the theorem `answer` of `exports` has it: every outcome, whatever
// its number, is told of one answer.
#[derive(Clone, Copy, Debug, PartialEq, Eq)]
pub struct Refusal {
    pub row: u8,
    pub place: usize,
}

// A refusal of a call that takes several lists: which of them is refused, 1 or 2, or 3 for a map between them, or 0 for what belongs to none. It stays a number by
// the theorem `finding`, which says the same of it.
#[derive(Clone, Copy, Debug, PartialEq, Eq)]
pub struct ListRefusal {
    pub list: u8,
    pub refusal: Refusal,
}

// What a call gives that puts children in order: what it was asked for, and how many pairs were looked at to put siblings in order.
#[derive(Clone, Copy, Debug, PartialEq, Eq)]
pub struct Reported<T> {
    pub value: T,
    pub pairs: usize,
}

// 3: n is 0 or above most.
pub fn sized(n: usize, most: usize) -> Result<(), Refusal>
    ensures { Answers (row3 most n ∷ []) result }
{
    if n == 0 || most < n {
        return Err(Refusal { row: 3, place: 0 });
    }
    Ok(())
}

// 15: what is lent is shorter than what is needed.
pub fn fits(need: usize, lent: usize) -> Result<(), Refusal>
    ensures { Answers (row15 need lent ∷ []) result }
{
    if lent < need {
        return Err(Refusal {
            row: 15,
            place: need,
        });
    }
    Ok(())
}
