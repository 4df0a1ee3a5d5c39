// What the words give that ask for a topology text.

ghost use Rattle.std.specs.Prelude.{◌≤◌};

/// The words that ask for a topology text.
#[derive(Clone, Copy, Debug, PartialEq, Eq)]
pub struct ShapeWords<'a> {
    /// The name of its shape.
    pub shape: &'a str,
    /// How many nodes it has, from 1 to 1,024.
    pub nodes: u32,
    /// What a random shape is drawn by.
    pub seed: u32,
    /// The name of its application, if one was given.
    pub app: Option<&'a str>,
    ghost some: { 1 ≤ nodes },
    ghost few: { nodes ≤ 1024 },
}
