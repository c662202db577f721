//! The lexical layer of listings: lines, labels, words, operands, names and numbers.
#![tactic(auto)]

mod blank;
mod cuts;
mod label;
mod line;
mod name;
mod number;
mod operand;

pub use blank::{cut_word, is_blank, trim};
pub use cuts::cut;
pub use label::next_label;
pub use line::{before_comment, next_code, next_line};
pub use name::{is_name, is_plain, is_plain_text};
pub use number::{begins_number, decimal_in, first_is, number_in};
pub use operand::{count_operands, next_operand, only_operand, operand_part, parenthesized};
