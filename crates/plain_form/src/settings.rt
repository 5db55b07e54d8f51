//! What the machine decides of forms, as lines of the settings say it.
use nc_number::{ByteList, ListOf, Point};
use std::alloc::Global;

/// How a block of G01 names the corner behind it.
#[derive(Clone, Copy, Debug, PartialEq, Eq)]
pub enum Corners {
    /// `,C` and `,R`.
    Comma,
    /// C, R, I and K in a block of G01.
    Letters,
}

/// To which side the control rounds a depth of G76 that is a root.
#[derive(Clone, Copy, Debug, PartialEq, Eq)]
pub enum Roots {
    /// The root's whole part.
    Down,
    /// The next whole number, if it is none.
    Up,
}

/// The M codes that turn the spindle about at the bottom of a tap (G84, G88), and back at its end.
#[derive(Clone, Copy, Debug, PartialEq, Eq)]
pub struct TapTurns {
    /// The code that turns it about.
    pub reverse: u32,
    /// The code that turns it back.
    pub forward: u32,
}

/// The nose of a tool, by its offset number.
#[derive(Clone, Copy, Debug, PartialEq, Eq)]
pub struct Nose {
    /// The number of the tool's offset.
    pub offset: u32,
    /// The radius of the nose in 0.001 mm.
    pub radius: u64,
    /// Where its centre lies from the programmed point, 0 to 9.
    pub tip: u8,
}

/// The noses of tools.
pub type NoseList = ListOf<Nose>;

/// The choices of the machine. Lengths are in 0.001 mm; those across are radii.
#[derive(Debug, Drop)]
pub struct FormSettings {
    /// How corners are named.
    pub corners: Corners,
    /// Letters of words that move neither X nor Z.
    pub idle: ByteList,
    /// The second reference position, in machine coordinates.
    pub second_home: Option<Point>,
    /// How deep a pass of G71 and G72 cuts where no word says it.
    pub rough_depth: Option<u64>,
    /// How far the tool draws back after a pass of G71 and G72 where no word says it.
    pub rough_retreat: u64,
    /// How many passes G73 makes where no word says it.
    pub pattern_passes: Option<u32>,
    /// How many passes of G76 are at the whole depth where no word says it.
    pub thread_finishing: u8,
    /// How far before its end a thread is left, in tenths of its lead, where no word says it.
    pub thread_pull_out: u8,
    /// The angle of a thread's tip in degrees where no word says it.
    pub thread_angle: u8,
    /// The least depth of a cut of G76 where no word says it.
    pub thread_least: u64,
    /// What G76 leaves for the passes at the whole depth where no word says it.
    pub thread_left: u64,
    /// To which side a depth of G76 that is a root is rounded.
    pub thread_roots: Roots,
    /// The codes that turn the spindle about for a tap; `None` if the machine does so by itself.
    pub tap_turns: Option<TapTurns>,
    /// How far G74 and G75 draw back after a peck where no word says it.
    pub groove_retreat: u64,
    /// How far G83 draws back after a peck; `None` if to the level of its start.
    pub peck_retreat: Option<u64>,
    /// How far before the depth reached a peck of G83 begins to cut.
    pub peck_clearance: u64,
    /// The noses of tools.
    pub noses: NoseList,
}

impl FormSettings {
    ghost use Rattle.std.specs.Prelude.{◌≡◌};
    ghost use Rattle.plain_form.specs.Settings.{standard};

    /// The choices of a machine that says none.
    pub fn standard(alloc: Global) -> FormSettings
        ensures { result ≡ standard }
    {
        FormSettings {
            corners: Corners::Comma,
            idle: ByteList::of(Vec::new(alloc)),
            second_home: None,
            rough_depth: None,
            rough_retreat: 500,
            pattern_passes: None,
            thread_finishing: 1,
            thread_pull_out: 0,
            thread_angle: 60,
            thread_least: 0,
            thread_left: 0,
            thread_roots: Roots::Down,
            tap_turns: Some(TapTurns {
                reverse: 4,
                forward: 3,
            }),
            groove_retreat: 500,
            peck_retreat: None,
            peck_clearance: 500,
            noses: NoseList::of(Vec::new(alloc)),
        }
    }
}
