ghost use Rattle.std.specs.Prelude.{◌≡◌, ℕ, ◌+◌, ◌*◌, ◌/◌, ◌%◌, [], ◌∷◌, Some, refl};
ghost use Rattle.std.proofs.Common.{ap, ◌∙◌, arith, rules};
ghost use Rattle.values.specs.Answer.{case_of, number_of, case_name, answer_bytes, answer_reads, answer_text, answer_of};
ghost use Rattle.values.specs.BoxNumber.{box_numbered};
ghost use Rattle.std.specs.Option.{option_map};
ghost use Rattle.values.specs.declared.answer.Answer.TheVariants.{Blank, Ticked, Written, Refused};
ghost use Rattle.values.specs.Boxes.{box_some};
ghost use Rattle.values.specs.AnswerValueLemmas.{whole, of_parts};

use crate::box_number::BoxNumber;
use crate::buffer::{TooShort, put_front};
use crate::kind::Value;
use std::fmt;

// A coded answer on a form.
#[derive(Clone, Copy, PartialEq, Eq, Debug)]
pub enum Answer {
    Blank,
    Ticked(BoxNumber),
    Written(u16),
    Refused,
}

// The first byte of each case. Constants, because a match reads them back; an enum beside `Answer` would need two
// matches more.
const BLANK: u8 = 0;

const TICKED: u8 = 1;

const WRITTEN: u8 = 2;

const REFUSED: u8 = 3;

impl Answer {
    // The number of the answer's case.
    pub fn case(&self) -> u8
        ensures { result ≡ case_of self.now }
    {
        match self {
            Answer::Blank => BLANK,
            Answer::Ticked(_) => TICKED,
            Answer::Written(_) => WRITTEN,
            Answer::Refused => REFUSED,
        }
    }

    // The number beside the case: of the box, or as written; 0 in the other cases.
    pub fn number(&self) -> u16
        ensures { result ≡ number_of self.now }
    {
        match self {
            Answer::Ticked(ticked) => ticked.number,
            Answer::Written(number) => *number,
            Answer::Blank | Answer::Refused => 0,
        }
    }

    fn case_name(&self) -> &'static str
        ensures { result.now ≡ case_name self.now }
    {
        match self {
            Answer::Blank => "blank",
            Answer::Ticked(_) => "ticked",
            Answer::Written(_) => "written",
            Answer::Refused => "refused",
        }
    }
}

const WIDTH: usize = 3;

impl Value for Answer {
    ghost width = { 3 };

    ghost bytes = { answer_bytes };

    ghost reads = { answer_reads };

    ghost narrow = { Prim.search rules };

    ghost fixed = { Prim.search rules };

    ghost back = { elim [
      | Blank ↦ refl
      | Ticked box ↦ ap (λ (n : ℕ). option_map Ticked (box_numbered n)) (whole box.number) ∙ ap (option_map Ticked) (box_some box)
      | Written n ↦ ap (answer_of 2) (whole n)
      | Refused ↦ refl
    ] };

    ghost only = { elim [
      | [] ↦ λ x u e. cc
      | a ∷ [] ↦ λ x u e. cc
      | a ∷ b ∷ [] ↦ λ x u e. cc
      | a ∷ b ∷ c ∷ [] ↦
          λ x u e.
          let p = of_parts a (b * 256 + c) x e in
          let high : number_of x / 256 ≡ b = omega arith in
          let low : number_of x % 256 ≡ c = omega arith in
          cc
      | a ∷ b ∷ c ∷ d ∷ more ↦ λ x u e. cc
    ] };

    fn width() -> usize {
        WIDTH
    }

    fn write(&self, out: &mut [u8]) -> Result<usize, TooShort> {
        let [high, low] = self.number().to_be_bytes();
        put_front(&[self.case(), high, low], out)
    }

    fn read(from: &[u8]) -> Option<Answer> {
        let [case, high, low] = from else {
            return None;
        };
        match (*case, u16::from_be_bytes([*high, *low])) {
            (BLANK, 0) => Some(Answer::Blank),
            (TICKED, number) => Some(Answer::Ticked(BoxNumber::try_from(number).ok()?)),
            (WRITTEN, number) => Some(Answer::Written(number)),
            (REFUSED, 0) => Some(Answer::Refused),
            _ => None,
        }
    }
}

// The case by its name, then the number beside it.
impl fmt::Display for Answer {
    ghost output = { λ a. Some (answer_text a) };

    fn fmt<W: fmt::Write>(&self, f: &mut fmt::Formatter<W>) -> fmt::Result {
        write!(f, "{} {}", self.case_name(), self.number())
    }
}
