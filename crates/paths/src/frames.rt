// Binder frames: an array by value, with methods that return the changed frames.
ghost use Rattle.std.specs.Prelude.{◌∷◌, ◌≡◌, ◌+◌, ◌<◌, ◌≤◌};
ghost use Rattle.json_text.specs.Cursor.{OnText};
ghost use Rattle.json_text.specs.Spans.{text_at};
ghost use Rattle.paths.specs.Lazy.{outer};
ghost use Rattle.paths.specs.Path.{part};
ghost use Rattle.paths.specs.Stack.{Named, Small, bound_in, frame_in, held};

use crate::operand::{Kind, Operand};
use crate::path::part_is;

// A binder in force: the place of its name in the sheet, and what it stands for.
#[derive(Clone, Copy)]
pub struct Frame {
    pub name: usize,
    pub operand: Operand,
}

// A frame as it is kept, in eight bytes: all frames are copied where a binder comes or goes, and for an element of a written array or object.
#[derive(Clone, Copy)]
pub struct Slot {
    pub name: u16,
    pub node: u16,
    pub depth: u16,
    pub kind: Kind,
}

impl Slot {
    // No From: it asks that the frame is small, which a trait's method can't ask; `operand` is its way back.
    fn of(frame: Frame) -> Slot
        requires { Small frame }
        ensures { frame_in result ≡ frame }
    {
        Slot {
            name: frame.name as u16,
            node: frame.operand.node as u16,
            depth: frame.operand.depth as u16,
            kind: frame.operand.kind,
        }
    }

    fn operand(self) -> Operand
        ensures { result ≡ (frame_in self).operand }
    {
        Operand {
            node: usize::from(self.node),
            depth: usize::from(self.depth),
            kind: self.kind,
        }
    }
}

// The binders in force, the innermost last.
// The paper's form: frames in an array by value, with how many are in force.
#[derive(Clone, Copy)]
pub struct Frames {
    pub slots: [Slot; 32],
    pub depth: usize,
}

impl Frames {
    pub fn new() -> Frames
        ensures { result.depth ≡ 0 }
    {
        let slot = Slot {
            name: 0,
            node: 0,
            depth: 0,
            kind: Kind::Null,
        };
        Frames {
            slots: [slot; 32],
            depth: 0,
        }
    }

    pub fn push(self, frame: Frame) -> Frames
        requires { (self.depth < 32) × Small frame }
        ensures { (result.depth ≡ self.depth + 1) × (held result ≡ frame ∷ held self) }
    {
        let mut slots = self.slots;
        slots[self.depth] = Slot::of(frame);
        Frames {
            slots,
            depth: self.depth + 1,
        }
    }

    // The outermost frames, at most so many.
    pub fn outer(self, depth: usize) -> Frames
        requires { self.depth ≤ 32 }
        ensures { (result.depth ≤ depth) × (result.depth ≤ self.depth) × (held result ≡ outer depth (held self)) }
    {
        Frames {
            depth: self.depth.min(depth),
            ..self
        }
    }

    // What the innermost frame stands for whose name is the first part of a path.
    pub fn find(&self, s: &[u8], path: &[u8]) -> Option<Operand>
        requires { (self.now.depth ≤ 32) × Named s.now (held self.now) × OnText path.now 0 0 }
        ensures { result ≡ bound_in s.now (part (text_at path.now 0)) (held self.now) }
    {
        for slot in self.slots[..self.depth].iter().rev() {
            if part_is(path, s, usize::from(slot.name)) {
                return Some(slot.operand());
            }
        }
        None
    }
}
