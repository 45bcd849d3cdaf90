// Worked lines.
ghost use Rattle.restore.specs.Worked.{Worked};

// The worked lines of the field of four elements stand.
pub fn worked_restorings_stand()
    ensures { Worked }
{}
