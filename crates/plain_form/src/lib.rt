//! What a form of a shop's program answers about the blocks that it is asked for: plain blocks in
//! their place, that they are none of its, or why they can't be written out. Here are the types of
//! question and answer, how the words of such blocks are read, and how plain words are made.
//!
//! A form is a function of the blocks of a program, the place of one of them, what is known before
//! it (`Scene`), and the choices of the machine (`FormSettings`); it answers a `FormAnswer`. It knows
//! no text: who asks it prints.
#![tactic(auto)]

mod answer;
mod cause;
mod making;
mod said;
mod scene;
mod settings;

pub use answer::{FormAnswer, WrittenLine, WrittenLineList};
pub use cause::{PlainCause, PlainFault};
pub use making::{LONGEST_REST, plain_line, push_block, push_length, push_number, push_word};
pub use said::{Said, has_code, is_code_word, is_one_of, last_said, said_of, unexpected};
pub use scene::{Scene, Unit};
pub use settings::{Corners, FormSettings, Nose, NoseList, Roots, TapTurns};
