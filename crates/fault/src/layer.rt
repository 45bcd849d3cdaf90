// The three layers that refuse calls, and the letter by which each is printed.
ghost use Rattle.std.specs.Prelude.{◌≡◌, ◌++◌, [], ◌∷◌, Some, codes};
ghost use Rattle.fault.specs.Letters.{letter_of, layer_of, Decodes};
ghost use lib.Utf8.{encode};

use std::error::Error;
use std::fmt;

#[derive(Clone, Copy, PartialEq, Eq, Debug)]
pub enum Layer {
    // The round file and its frames.
    File,
    // The book, the line code and the field.
    Book,
    // The rack and its bays.
    Rack,
}

// A letter that stands for no layer.
#[derive(Clone, Copy, PartialEq, Eq, Debug)]
pub struct NoLayer(pub char);

impl From<Layer> for char {
    ghost from_gives = { λ layer letter. (letter ≡ letter_of layer) × (layer_of letter ≡ Some layer) };

    fn from(layer: Layer) -> char {
        match layer {
            Layer::File => 'f',
            Layer::Book => 'b',
            Layer::Rack => 'r',
        }
    }
}

impl TryFrom<char> for Layer {
    type Error = NoLayer;

    ghost try_from_gives = { Decodes };

    fn try_from(letter: char) -> Result<Layer, NoLayer> {
        match letter {
            'f' => Ok(Layer::File),
            'b' => Ok(Layer::Book),
            'r' => Ok(Layer::Rack),
            _ => Err(NoLayer(letter)),
        }
    }
}

impl fmt::Display for Layer {
    ghost output = { λ layer. Some (letter_of layer ∷ []) };

    fn fmt<W: fmt::Write>(&self, f: &mut fmt::Formatter<W>) -> fmt::Result {
        f.write_char(char::from(*self))
    }
}

impl fmt::Display for NoLayer {
    ghost output = { λ fault. Some (codes "no layer has the letter " ++ encode fault.0) };

    fn fmt<W: fmt::Write>(&self, f: &mut fmt::Formatter<W>) -> fmt::Result {
        write!(f, "no layer has the letter {}", self.0)
    }
}

impl Error for NoLayer {}
