use dt_text::Listed;

/// A resolved class: its vertices, the soonest first, and how many of them are done.
#[derive(Drop)]
pub struct Open {
    pub members: Listed<u32>,
    pub next: usize,
}
