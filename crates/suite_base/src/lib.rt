//! What every crate of the suite stands on: lists and texts that keep their allocator, lines, words
//! and numbers of a text, the one type of refusals, and the outside: sources, sinks and files.
#![tactic(auto)]

mod file_reading;
mod held_files;
mod limits;
mod line_cursors;
mod lists;
mod memory;
mod memory_fakes;
mod name_bytes;
mod numbers;
mod outside;
mod places;
mod reading;
mod refusals;
mod sure_fakes;
mod texts;
mod word_lists;
mod words;
mod writing;

pub use file_reading::read_file;
pub use limits::{
    MAX_ACCESSES, MAX_ARRAYS, MAX_COMMANDS, MAX_DIMENSIONS, MAX_INPUT, MAX_ITERATORS, MAX_LEVELS,
    MAX_LOCALS, MAX_LOOPS, MAX_NESTS, MAX_PARAMETERS, MAX_PARTS, MAX_ROWS, MAX_STAGE_ROWS,
    MAX_STATEMENTS, MAX_SUBSCRIPTS, MAX_SYSTEMS, MAX_WEIGHT, limits_agree,
};
pub use line_cursors::{Lines, is_blank_byte, trimmed, trimmed_front};
pub use lists::List;
pub use memory::NoMemory;
pub use memory_fakes::{MemFiles, MemSink, MemSource};
pub use name_bytes::{begins_name_byte, is_letter_byte, is_name_byte};
pub use numbers::{NumberRead, are_all_digits, is_digit_byte, read_number};
pub use outside::{Failed, Files, Sink, Source};
pub use places::{Place, after_byte, after_bytes};
pub use reading::{ReadFail, read_all};
pub use refusals::{Entry, Fail, Fields, Refusal, Where, Which};
pub use sure_fakes::{SureFiles, SureSink, SureSource};
pub use texts::Text;
pub use word_lists::WordList;
pub use words::{content_line, next_word};
pub use writing::{write_all, write_pieces};
