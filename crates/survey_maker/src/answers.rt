//! What is given for the numbers of a business: the right ones, but for a slip in some rows. So the
//! editor has something to correct. In contracts, `state_after` is the generator's state after so many
//! draws.
ghost use Rattle.std.specs.Prelude.{◌≡◌, ◌++◌, OnOk};
ghost use Rattle.std.specs.Fmt.{decimal};
ghost use Rattle.survey_maker.specs.Draws.{state_after};
ghost use Rattle.survey_maker.specs.RecordFiles.{answer_text, slipped};
ghost use Rattle.survey_maker.specs.inner.Drawn.{answers_from, draws_from};

use crate::generator::Generator;
use foundation::OutOfMemory;
use itoa::Buffer;

/// What is given for a number: the number, nothing, or ten times the number and 1 more.
#[derive(Clone, Copy)]
pub(crate) enum Answer {
    Right(u32),
    LeftOut,
    Tenfold(u32),
}

impl Answer {
    // A right answer with a slip: it is left out where `is_left_out` says so, and else ten times the
    // number and 1 more. An answer that has a slip already stays as it is.
    fn with_slip(self, is_left_out: bool) -> Answer
        ensures { result ≡ slipped is_left_out self }
    {
        match self {
            Answer::Right(number) => {
                if is_left_out {
                    Answer::LeftOut
                } else {
                    Answer::Tenfold(number)
                }
            }
            Answer::LeftOut | Answer::Tenfold(_) => self,
        }
    }

    /// Appends the text of the answer, as it stands in the record file. It is empty where the number is left
    /// out.
    pub(crate) fn write(self, text: &mut Vec<u8>) -> Result<(), OutOfMemory>
        ensures { OnOk result (text.new.items ≡ text.old.items ++ answer_text self) }
    {
        match self {
            Answer::Right(number) => write_number(text, u64::from(number)),
            Answer::LeftOut => Ok(()),
            Answer::Tenfold(number) => write_number(text, 10 * u64::from(number) + 1),
        }
    }
}

/// Draws what is given in the place of the `right` answers. In about three of four rows these are given. In
/// the others one of them has a slip. The first draw tells whether there is a slip, and only then two more
/// tell at which answer it is, and of which kind.
pub(crate) fn draw_answers(right: [Answer; 12], generator: &mut Generator) -> [Answer; 12]
    ensures answers { result ≡ answers_from right generator.old }
    ensures state { generator.new ≡ state_after (draws_from generator.old) generator.old }
{
    let mut answers = right;
    if generator.draw(4) == 0 {
        let field = generator.draw(12) as usize;
        let is_left_out = generator.draw(2) == 0;
        answers[field] = right[field].with_slip(is_left_out);
    }
    answers
}

/// Appends the number in decimal.
pub(crate) fn write_number(text: &mut Vec<u8>, number: u64) -> Result<(), OutOfMemory>
    ensures { OnOk result (text.new.items ≡ text.old.items ++ decimal number) }
{
    let mut buffer = Buffer::new();
    text.extend_from_slice(buffer.format(number).as_bytes())?;
    Ok(())
}
