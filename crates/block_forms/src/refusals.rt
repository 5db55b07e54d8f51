//! Why words that read are refused, each refusal apart from the others. For this crate alone:
//! reading.rt asks for the first that holds. The definitions, of the same names, are in
//! specs/Refusals.antt.
ghost use Rattle.std.specs.Prelude.{◌≡◌, codes};
ghost use Rattle.std.specs.List.{list_any};
ghost use Rattle.block_words.specs.Words.{words_of};
ghost use Rattle.block_forms.specs.Refusals.{is_refused_row, is_unknown_code, known_letters, is_macro_row, begins_macro_call, is_above, are_in_order, has_repeats};

use crate::words::FlowWords;
use block_words::{
    FlowWord, Purpose, count_of, has, has_code, has_computed, has_wait, is_in_range, is_one_of,
    number_of, row_of_word,
};
use code_tables::{CodeKind, Row, System};
use nc_number::Cause;

/// Whether the system lacks the code of the row, or the control refuses it.
fn is_refused_row(row: Option<Row>) -> bool
    ensures { result ≡ is_refused_row row }
{
    match row {
        Some(row) => row.kind.is_refused(),
        None => true,
    }
}

/// Whether it is the row of a macro call.
fn is_macro_row(row: Option<Row>) -> bool
    ensures { result ≡ is_macro_row row }
{
    match row {
        Some(row) => matches!(row.kind, CodeKind::MacroCall),
        None => false,
    }
}

/// Whether the G word is written out, and of a code that the system lacks or the control refuses.
fn is_unknown_code(system: System, word: &FlowWord) -> bool
    ensures { result ≡ is_unknown_code system word.now }
{
    !word.value.is_computed() && is_refused_row(row_of_word(system, word))
}

/// Whether a G word is of a code that the system lacks or the control refuses. A computed G word is
/// none: it is refused because it is computed.
fn has_unknown_code(system: System, words: &[FlowWord]) -> bool
    ensures { result ≡ list_any (is_unknown_code system) (words_of (codes "G") words.now) }
{
    words
        .iter()
        .filter(|word| is_one_of(b"G", word.letter))
        .any(|word| is_unknown_code(system, word))
}

/// The letters that have a meaning outside macro calls: incremental U and W are of system A alone.
fn known_letters(system: System) -> &'static [u8]
    ensures { result.now ≡ known_letters system }
{
    match system {
        System::A => b"XZUWIKRFSTNOMGPL",
        System::B => b"XZIKRFSTNOMGPL",
    }
}

/// Whether the first word is the G65, and no other is a G, N or O word.
fn begins_macro_call(system: System, words: &[FlowWord]) -> bool
    ensures { result ≡ begins_macro_call system words.now }
{
    match words {
        [] => false,
        [first, rest @ ..] => {
            is_one_of(b"G", first.letter)
                && is_macro_row(row_of_word(system, first))
                && !has(rest, b"GNO")
        }
    }
}

/// Whether a letter of the arguments I, J and K may follow the one before it.
fn is_above(before: Option<u8>, letter: u8) -> bool
    ensures { result ≡ is_above before letter }
{
    match before {
        Some(before) => before < letter,
        None => true,
    }
}

/// Whether I, J and K stand in the order of the alphabet, each at most once.
#[tactic(auto, using(crate::proofs::InOrder::in_order_start))]
fn are_in_order(words: &[FlowWord]) -> bool
    ensures { result ≡ are_in_order words.now }
{
    let mut before = None;
    for word in words {
        if is_one_of(b"IJK", word.letter) {
            if !is_above(before, word.letter) {
                return false;
            }
            before = Some(word.letter);
        }
    }
    true
}

/// Whether the P of a call of a subprogram has repeats before the program's four digits.
fn has_repeats(words: &[FlowWord]) -> bool
    ensures { result ≡ has_repeats words.now }
{
    match number_of(words, b"P") {
        Some(n) => 10_000 <= n,
        None => false,
    }
}

impl FlowWords {
    ghost use Rattle.block_forms.specs.Refusals.{is_not_fixed, is_unknown_letter, is_bad_limit, is_bad_machine};
    ghost use Rattle.block_forms.specs.Refusals.{is_unknown, waits_there, is_wait_not_alone, is_both};
    ghost use Rattle.block_forms.specs.Refusals.{is_wait_of_others, has_two_m, is_crowded_call, is_bad_macro_call};
    ghost use Rattle.block_forms.specs.Refusals.{is_bad_subprogram, is_bad_block, is_bad_call, has_axis_twice};
    ghost use Rattle.block_forms.specs.Refusals.{is_out_of_range, refusal_of};
    ghost use Rattle.block_words.specs.Words.{has, last_whole};
    ghost use Rattle.block_words.specs.Codes.{natural_number};

    /// 54: whether a word that must be written out is computed.
    fn is_not_fixed(&self) -> bool
        ensures { result ≡ is_not_fixed self.now.dialect self.now.words }
    {
        has_computed(self.words.as_slice(), self.purpose.fixed_letters())
    }

    /// Whether the letter has no meaning outside macro calls; Q has one beside G10 alone.
    fn is_unknown_letter(&self, letter: u8) -> bool
        ensures { result ≡ is_unknown_letter self.now.dialect.system self.now.words letter }
    {
        !(is_one_of(known_letters(self.dialect.system), letter)
            || (is_one_of(b"Q", letter) && self.gives_setting()))
    }

    /// Whether a word has a letter without a meaning. Asked outside macro calls alone: there every
    /// letter but a few is an argument.
    fn has_unknown_letter(&self) -> bool
        ensures { result ≡ list_any
            (λ word. is_unknown_letter self.now.dialect.system self.now.words word.letter) self.now.words }
    {
        let words = self.words.as_slice();
        words.iter().any(|word| self.is_unknown_letter(word.letter))
    }

    /// Whether the highest speed of the spindle, G50 of system A or G92 of system B, is without S
    /// or beside X, Z, U or W, which have no meaning there.
    fn is_bad_limit(&self) -> bool
        ensures { result ≡ is_bad_limit self.now.dialect.system self.now.words }
    {
        let words = self.words.as_slice();
        self.gives_limit() && (!has(words, b"S") || has(words, b"XZUW"))
    }

    /// Whether G53 stands beside U or W: it goes to absolute positions alone.
    fn is_bad_machine(&self) -> bool
        ensures { result ≡ is_bad_machine self.now.dialect.system self.now.words }
    {
        self.gives_machine() && has(self.words.as_slice(), b"UW")
    }

    /// 56: whether there is a letter or a code that the system lacks, or that the control refuses
    /// or does not allow there.
    fn is_unknown(&self) -> bool
        ensures { result ≡ is_unknown self.now.dialect.system self.now.words }
    {
        let system = self.dialect.system;
        if self.gives_macro_call() {
            !begins_macro_call(system, self.words.as_slice())
        } else {
            has_unknown_code(system, self.words.as_slice())
                || self.has_unknown_letter()
                || self.is_bad_limit()
                || self.is_bad_machine()
        }
    }

    /// Whether the block waits for the other path. A macro call does not: there M is an argument.
    fn waits_there(&self) -> bool
        ensures { result ≡ waits_there self.now.dialect self.now.words }
    {
        !self.gives_macro_call() && has_wait(self.words.as_slice(), self.dialect)
    }

    /// 57: whether a wait stands beside another word than P.
    fn is_wait_not_alone(&self) -> bool
        ensures { result ≡ is_wait_not_alone self.now.dialect self.now.words }
    {
        self.waits_there() && 1 < count_of(self.words.as_slice(), b"ABCDEFGHIJKLMNOQRSTUVWXYZ")
    }

    /// Whether the number of the last P names both paths.
    fn names_both(&self) -> bool
        ensures { result ≡ is_both self.now.dialect.bits (natural_number (last_whole (codes "P") self.now.words)) }
    {
        match number_of(self.words.as_slice(), b"P") {
            Some(paths) => self.dialect.names_both(paths),
            None => false,
        }
    }

    /// 58: whether the P of a wait is computed, or the last one does not name both paths.
    fn is_wait_of_others(&self) -> bool
        ensures { result ≡ is_wait_of_others self.now.dialect self.now.words }
    {
        let words = self.words.as_slice();
        self.waits_there() && has(words, b"P") && (has_computed(words, b"P") || !self.names_both())
    }

    /// 59: whether there is more than one M word outside a macro call.
    fn has_two_m(&self) -> bool
        ensures { result ≡ has_two_m self.now.dialect.system self.now.words }
    {
        !self.gives_macro_call() && 1 < count_of(self.words.as_slice(), b"M")
    }

    /// Whether a dwell or the setting of an offset stands beside a call or a return.
    fn is_crowded_call(&self) -> bool
        ensures { result ≡ is_crowded_call self.now.dialect.system self.now.words }
    {
        let words = self.words.as_slice();
        (has_code(words, 98) || has_code(words, 99)) && (self.gives_dwell() || self.gives_setting())
    }

    /// Whether the P of a macro call is missing, or its I, J and K are out of order. Asked of
    /// blocks that call a macro.
    fn is_bad_macro_call(&self) -> bool
        ensures { result ≡ is_bad_macro_call self.now.words }
    {
        let words = self.words.as_slice();
        !has(words, b"P") || !are_in_order(words)
    }

    /// Whether a call of a subprogram lacks P, or has its repeats twice, in P and by L.
    fn is_bad_subprogram(&self) -> bool
        ensures { result ≡ is_bad_subprogram self.now.words }
    {
        let words = self.words.as_slice();
        !has(words, b"P") || (has_repeats(words) && has(words, b"L"))
    }

    /// Whether P and L break a rule outside macro calls: a bad call of a subprogram, a crowded call
    /// or return, or a P or L without a meaning.
    fn is_bad_block(&self) -> bool
        ensures { result ≡ is_bad_block self.now.dialect.system self.now.purpose self.now.words }
    {
        let words = self.words.as_slice();
        (self.purpose == Purpose::Subprogram && self.is_bad_subprogram())
            || self.is_crowded_call()
            || (has(words, b"P") && self.purpose.is_idle_p())
            || (has(words, b"L") && self.purpose.is_idle_l())
    }

    /// 61: whether a call lacks its program or has words that don't fit together, or P or L has no
    /// meaning.
    fn is_bad_call(&self) -> bool
        ensures { result ≡ is_bad_call self.now.dialect self.now.words }
    {
        if self.gives_macro_call() {
            self.is_bad_macro_call()
        } else {
            self.is_bad_block()
        }
    }

    /// 62: whether an absolute and an incremental word of one axis stand in a block that calls no
    /// macro.
    fn has_axis_twice(&self) -> bool
        ensures { result ≡ has_axis_twice self.now.dialect.system self.now.words }
    {
        let words = self.words.as_slice();
        !self.gives_macro_call()
            && ((has(words, b"X") && has(words, b"U")) || (has(words, b"Z") && has(words, b"W")))
    }

    /// 64: whether a word that is written out is out of its range.
    fn is_out_of_range(&self) -> bool
        ensures { result ≡ is_out_of_range self.now.dialect self.now.words }
    {
        let words = self.words.as_slice();
        words.iter().any(|word| !is_in_range(self.purpose, word))
    }

    /// Why the block is refused: of the refusals that hold of it the one of the least number.
    pub(crate) fn refusal(&self) -> Option<Cause>
        ensures { result ≡ refusal_of self.now.dialect self.now.words }
    {
        if self.is_not_fixed() {
            Some(Cause::NotFixed)
        } else if self.is_unknown() {
            Some(Cause::UnknownCode)
        } else if self.is_wait_not_alone() {
            Some(Cause::WaitNotAlone)
        } else if self.is_wait_of_others() {
            Some(Cause::WaitPaths)
        } else if self.has_two_m() {
            Some(Cause::TwoM)
        } else if self.is_bad_call() {
            Some(Cause::BadCall)
        } else if self.has_axis_twice() {
            Some(Cause::AxisTwice)
        } else if self.is_out_of_range() {
            Some(Cause::WordRange)
        } else {
            None
        }
    }
}
