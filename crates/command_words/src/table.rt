//! The commands as one list of rows. What a task makes of its words is in making.rt. A further
//! command is a row here and in specs/Table.antt; the launcher has the same commands in
//! scripts/words.sh.
ghost use Rattle.std.specs.Prelude.{◌≡◌, map, option_map};
ghost use Rattle.std.specs.List.{list_any};
ghost use Rattle.std.specs.Str.{bytes_eq};
ghost use Rattle.command_words.specs.Table.{listings, row_in, row_of, row_seen, takes_option};

/// What a command asks for. `Command` says what each one does.
#[derive(Clone, Copy, Debug, PartialEq, Eq)]
pub enum Task {
    Verify,
    Waits,
    Races,
    Trace,
    Run,
    Resume,
    Edit,
    Moves,
    State,
    Zones,
    Branch,
    Make,
    Expand,
    Plain,
}

/// A row of the table: a command of the program, how its words are read, and what it asks for.
#[derive(Clone, Copy, Debug)]
pub struct Row {
    /// The word that the command begins with.
    pub name: &'static str,
    /// What the words after the name are called that the command must have.
    pub words: &'static [&'static str],
    /// What further words behind these are called, which may be left out.
    pub further: &'static [&'static str],
    /// The options that the command takes, each once at most, with a text: `--NAME TEXT` or
    /// `--NAME=TEXT`.
    pub options: &'static [&'static str],
    /// What the command asks for.
    pub task: Task,
}

// The rows of the table: a command's name, what its words are called, those that may be left out,
// the options that it takes, and its task.
macro_rules! command_rows {
    ($(
        $name:literal [$($word:literal),*] [$($further:literal),*] [$($option:literal),*] $task:ident;
    )+) => {
        [$(Row {
            name: $name,
            words: &[$($word),*],
            further: &[$($further),*],
            options: &[$($option),*],
            task: Task::$task,
        }),+]
    };
}

/// The commands of the program, as specs/Table.antt lists them.
const ROWS: [Row; 14] = command_rows! {
    "verify" ["left", "right"] ["settings"] [] Verify;
    "waits" ["left", "right"] ["settings"] ["outside"] Waits;
    "races" ["left", "right"] ["settings"] [] Races;
    "trace" ["left", "right"] ["settings"] ["blocks"] Trace;
    "run" ["left", "right"] ["settings"] ["blocks", "turret1", "turret2"] Run;
    "resume" [] [] ["blocks", "turret1", "turret2"] Resume;
    "edit" ["edits"] [] [] Edit;
    "moves" [] [] [] Moves;
    "state" [] [] [] State;
    "zones" ["zones"] ["left", "right", "settings"] [] Zones;
    "branch" ["meetings"] [] [] Branch;
    "make" ["number"] [] ["turret1", "turret2"] Make;
    "expand" ["tape"] [] [] Expand;
    "plain" ["tape"] ["settings"] [] Plain;
};

/// The row of the command that the word names, if it names one.
pub fn row_named(name: &str) -> Option<Row>
    ensures { option_map row_seen result ≡ row_of name.now }
{
    row_in(rows(), name)
}

/// Whether a row takes the option of this name.
pub fn takes_option(row: &Row, id: &str) -> bool
    ensures { result ≡ takes_option (row_seen row.now) id.now }
{
    is_among(row.options, id)
}

/// Whether the text is in the list.
fn is_among(texts: &[&str], id: &str) -> bool
    ensures { result ≡ list_any (λ own. bytes_eq own id.now) (map (λ s. s.now) texts.now) }
{
    for own in texts {
        if *own == id {
            return true;
        }
    }
    false
}

/// The rows of all commands.
pub fn rows() -> &'static [Row]
    ensures { map row_seen result.now ≡ listings }
{
    &ROWS
}

/// The first of the rows that has the name, if one has it.
fn row_in(rows: &[Row], name: &str) -> Option<Row>
    ensures { option_map row_seen result ≡ row_in (map row_seen rows.now) name.now }
{
    for row in rows {
        if row.name == name {
            return Some(*row);
        }
    }
    None
}
