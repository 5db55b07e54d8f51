//! What a G code does, as a kind. Which number stands for which kind in a system is in system.rt.
ghost use Rattle.std.specs.Prelude.{◌≡◌};
ghost use Rattle.code_tables.specs.Kinds.{is_refused, is_arc, is_cycle};

/// What a G code does, whatever its number is in a system.
#[derive(Clone, Copy, Debug, PartialEq, Eq)]
pub enum CodeKind {
    /// Positioning at rapid traverse.
    Rapid,
    /// A straight cut.
    Feed,
    /// An arc clockwise.
    ArcCw,
    /// An arc counter-clockwise.
    ArcCcw,
    /// One pass of a thread.
    Thread,
    /// The cycle that cuts along Z.
    CycleTurn,
    /// The cycle that threads along Z.
    CycleThread,
    /// The cycle that cuts along X.
    CycleFace,
    /// Constant surface speed.
    Surface,
    /// A fixed speed of the spindle.
    Spindle,
    /// Feed by the minute.
    PerMin,
    /// Feed by the revolution.
    PerRev,
    /// Inch input, which this control refuses.
    Inch,
    /// Metric input.
    Metric,
    /// No compensation of the nose radius.
    NoseOff,
    /// Compensation of the nose radius, which this control refuses.
    NoseOn,
    /// A work offset.
    Work,
    /// A dwell.
    Dwell,
    /// Setting of an offset.
    Setting,
    /// Return to the reference position.
    Home,
    /// The highest speed of the spindle.
    Limit,
    /// A rapid in machine coordinates.
    Machine,
    /// A call of a macro.
    MacroCall,
    /// X and Z are where the block goes.
    Absolute,
    /// X and Z are how far the block goes.
    Incremental,
    /// Accepted, and without effect.
    Idle,
}

impl CodeKind {
    /// Whether the control knows the code and refuses it: inch input, and compensation of the nose
    /// radius.
    pub fn is_refused(self) -> bool
        ensures { result ≡ is_refused self }
    {
        matches!(self, CodeKind::Inch | CodeKind::NoseOn)
    }

    /// Whether the code cuts an arc, beside which I, K and R are read.
    pub fn is_arc(self) -> bool
        ensures { result ≡ is_arc self }
    {
        matches!(self, CodeKind::ArcCw | CodeKind::ArcCcw)
    }

    /// Whether the code is a canned cycle, whose end point stays in force while the code does.
    pub fn is_cycle(self) -> bool
        ensures { result ≡ is_cycle self }
    {
        matches!(
            self,
            CodeKind::CycleTurn | CodeKind::CycleThread | CodeKind::CycleFace
        )
    }
}
