ghost use Rattle.lsp_frames.specs.Frames.{FramesStay};

/// A law: a whole frame at the front of an input stays what it is where more follows.
pub fn frames_stay()
    ensures { FramesStay }
{}
