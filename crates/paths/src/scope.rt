// What expressions are read under: the sheet's own members, and the binders in force.
ghost use Rattle.std.specs.Prelude.{◌∷◌, ◌≡◌, ◌+◌, ◌<◌, ◌≤◌};
ghost use Rattle.paths.specs.Lazy.{outer};
ghost use Rattle.paths.specs.Stack.{Small, held};

use crate::frames::{Frame, Frames};
use crate::roots::Roots;

#[derive(Clone, Copy)]
pub struct Scope {
    pub roots: Roots,
    pub frames: Frames,
}

impl Scope {
    // No binder is in force.
    pub fn new(roots: Roots) -> Scope
        ensures { (result.roots ≡ roots) × (result.frames.depth ≡ 0) }
    {
        Scope {
            roots,
            frames: Frames::new(),
        }
    }

    // One binder more.
    pub fn push(&self, frame: Frame) -> Scope
        requires { (self.now.frames.depth < 32) × Small frame }
        ensures { (result.roots ≡ self.now.roots) × (result.frames.depth ≡ self.now.frames.depth + 1) × (held result.frames ≡ frame ∷ held self.now.frames) }
    {
        Scope {
            roots: self.roots,
            frames: self.frames.push(frame),
        }
    }

    // The outermost binders, at most so many.
    pub fn outer(&self, depth: usize) -> Scope
        requires { self.now.frames.depth ≤ 32 }
        ensures { (result.roots ≡ self.now.roots) × (result.frames.depth ≤ depth) × (result.frames.depth ≤ self.now.frames.depth) × (held result.frames ≡ outer depth (held self.now.frames)) }
    {
        Scope {
            roots: self.roots,
            frames: self.frames.outer(depth),
        }
    }
}
