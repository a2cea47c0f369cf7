//! What is around code that is appended.

use task_code_registers::scopes::Held;
use task_code_scalar::layouts::{BufferLayout, Places};

/// What is around code: where all buffers lie, and which registers hold which forms.
#[derive(Clone, Copy)]
pub struct Site<'a> {
    pub places: &'a Places,
    pub scope: &'a [Held],
}

/// What is around code that reaches one buffer.
#[derive(Clone, Copy)]
pub struct BufferSite<'a> {
    /// Where the buffer lies.
    pub place: &'a BufferLayout,
    pub scope: &'a [Held],
}
