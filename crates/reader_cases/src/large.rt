// Texts at the limits, made when they are asked for.
use std::alloc::{AllocError, Global};
use std::fmt;

// What is at a limit, or one past it.
#[derive(Clone, Copy)]
pub enum Shape {
    Rules64,
    Rules65,
    Goals1024,
    Goals1025,
    Ands1024,
    News16,
    News17,
    Bytes65536,
    Bytes65537,
}

// `count` times the same piece behind `text`.
fn repeat(text: &mut Vec<u8>, piece: &[u8], count: usize) -> Result<(), AllocError> {
    for _ in 0..count {
        text.extend_from_slice(piece)?;
    }
    Ok(())
}

impl fmt::Display for Shape {
    fn fmt<W: fmt::Write>(&self, f: &mut fmt::Formatter<W>) -> fmt::Result {
        f.write_str(match self {
            Shape::Rules64 => "64 rules",
            Shape::Rules65 => "65 rules",
            Shape::Goals1024 => "1024 goals",
            Shape::Goals1025 => "1025 goals",
            Shape::Ands1024 => "1024 open goals",
            Shape::News16 => "16 slots",
            Shape::News17 => "17 slots",
            Shape::Bytes65536 => "65536 bytes",
            Shape::Bytes65537 => "65537 bytes",
        })
    }
}

impl Shape {
    pub const ALL: [Shape; 9] = [
        Shape::Rules64,
        Shape::Rules65,
        Shape::Goals1024,
        Shape::Goals1025,
        Shape::Ands1024,
        Shape::News16,
        Shape::News17,
        Shape::Bytes65536,
        Shape::Bytes65537,
    ];

    pub fn text(self, heap: Global) -> Result<Vec<u8>, AllocError> {
        let mut text = Vec::new(heap);
        match self {
            Shape::Rules64 => repeat(&mut text, b"rule,0\ntell,0,0\n", 64)?,
            Shape::Rules65 => repeat(&mut text, b"rule,0\ntell,0,0\n", 65)?,
            Shape::Goals1024 => {
                repeat(&mut text, b"rule,0\nnew\ntell,0,0\n", 1)?;
                repeat(&mut text, b"rule,0\nor\ntell,0,0\ntell,0,0\n", 2)?;
                repeat(&mut text, b"rule,0\n", 1)?;
                repeat(&mut text, b"and\ntell,0,0\n", 507)?;
                repeat(&mut text, b"new\ntell,0,0\n", 1)?;
            }
            Shape::Goals1025 => {
                repeat(&mut text, b"rule,0\n", 1)?;
                repeat(&mut text, b"and\ntell,0,0\n", 513)?;
            }
            Shape::Ands1024 => {
                repeat(&mut text, b"rule,0\n", 1)?;
                repeat(&mut text, b"and\n", 1025)?;
            }
            Shape::News16 => {
                repeat(&mut text, b"rule,0\n", 1)?;
                repeat(&mut text, b"new\n", 16)?;
                repeat(&mut text, b"tell,0,0,0,15\n", 1)?;
            }
            Shape::News17 => {
                repeat(&mut text, b"rule,0\n", 1)?;
                repeat(&mut text, b"new\n", 17)?;
                repeat(&mut text, b"tell,0,0\n", 1)?;
            }
            Shape::Bytes65536 => repeat(&mut text, b"x", 65536)?,
            Shape::Bytes65537 => repeat(&mut text, b"x", 65537)?,
        }
        Ok(text)
    }
}
