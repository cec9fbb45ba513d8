// The records of a drawing.
use forms::Polarity;
use plane::points::{FileCentre, FilePoint, Half};

/// What a flash of an aperture shows.
#[derive(Clone, Copy, PartialEq, Eq, Debug)]
pub enum Figure {
    Circle { half: Half },
    Rectangle { a: Half, b: Half },
    Obround { a: Half, b: Half },
    /// the number of the first object record of the block
    Block { first: usize },
}

/// An aperture and its code.
#[derive(Clone, Copy, PartialEq, Eq, Debug)]
pub struct Aperture {
    pub code: u32,
    pub figure: Figure,
}

/// The axes along which a block is mirrored: `x` negates x, `y` negates y.
#[derive(Clone, Copy, PartialEq, Eq, Debug)]
pub struct Mirror {
    pub x: bool,
    pub y: bool,
}

/// A step and repeat: the number of its first object record, how often it repeats along x and y,
/// and by how many ticks.
#[derive(Clone, Copy, PartialEq, Eq, Debug)]
pub struct Repeat {
    pub first: usize,
    pub columns: u32,
    pub rows: u32,
    pub step_x: u64,
    pub step_y: u64,
}

/// Where an object stands.
#[derive(Clone, Copy, PartialEq, Eq, Debug)]
pub enum Owner {
    Layer,
    /// the number of the block's aperture record
    Block(usize),
    Repeat(Repeat),
}

/// What an object covers, as the file has it.
#[derive(Clone, Copy, PartialEq, Eq, Debug)]
pub enum Outline {
    Circle {
        at: FilePoint,
        half: Half,
    },
    Rectangle {
        at: FilePoint,
        a: Half,
        b: Half,
    },
    Obround {
        at: FilePoint,
        a: Half,
        b: Half,
    },
    Stroke {
        from: FilePoint,
        to: FilePoint,
        half: Half,
    },
    Arc {
        from: FilePoint,
        to: FilePoint,
        centre: FileCentre,
        clockwise: bool,
        half: Half,
    },
    /// its first point, the number of its first piece's record, and how many pieces it has
    Contour {
        start: FilePoint,
        first: usize,
        count: usize,
    },
    /// a flash of the block with this aperture record
    Block {
        number: usize,
        at: FilePoint,
        mirror: Mirror,
    },
}

/// One object of a drawing.
#[derive(Clone, Copy, PartialEq, Eq, Debug)]
pub struct Object {
    pub polarity: Polarity,
    pub owner: Owner,
    pub outline: Outline,
}
