//! Tokens and their columns.
ghost use Rattle.std.specs.Prelude.{◌≡◌, ◌∷◌, [], List, ℕ, IfOk, string_bytes};
ghost use Rattle.apl_array.specs.Array.{number_array};

use apl_array::{Array, ScalarFunction, Shape};
use std::alloc::{AllocError, Global};
use std::marker::Model;
use std::rc::Rc;

/// The text of a name.
#[derive(Drop)]
pub struct Name {
    text: String,
}

impl Model for Name {
    ghost use Rattle.std.specs.Prelude.{List, ℕ, string_bytes};

    ghost Value = { List ℕ };

    ghost view = { λ n. string_bytes n.text };
}

impl Name {
    /// The name that has this text.
    pub fn new(text: String) -> Name
        ensures { result ≡ string_bytes text }
    {
        Name { text }
    }

    /// The text of the name.
    pub fn as_str(&self) -> &str
        ensures { result.now ≡ self.now }
    {
        self.text.as_str()
    }
}

/// A single number takes no memory. Another array is shared by all who hold it.
#[derive(Drop)]
enum ConstantStorage {
    Number(i64),
    Shared(Rc<Array>),
}

/// The array of a constant.
#[derive(Drop)]
pub struct Constant {
    storage: ConstantStorage,
}

impl Model for Constant {
    ghost use Rattle.apl_array.specs.Array.{ArrayValue};

    ghost Value = { ArrayValue };

    ghost use Rattle.apl_tokens.specs.Storage.{array_of};

    ghost view = { λ c. array_of c.storage };
}

/// The array of one number.
fn scalar(alloc: Global, number: i64) -> Result<Array, AllocError>
    ensures { IfOk result (λ array. array ≡ number_array [] (number ∷ [])) }
{
    let mut numbers = Vec::with_capacity(alloc, 1)?;
    numbers.push(number)?;
    let Ok(shape) = Shape::new(alloc, &[]) else {
        unreachable!()
    };
    Ok(Array::ints(shape, numbers))
}

impl Constant {
    /// The constant of this array.
    pub fn new(alloc: Global, array: Array) -> Result<Constant, AllocError>
        ensures { IfOk result (λ constant. constant ≡ array) }
    {
        let shared = Rc::new(alloc, array)?;
        Ok(Constant {
            storage: ConstantStorage::Shared(shared),
        })
    }

    /// The constant of one number.
    pub fn number(number: i64) -> Constant
        ensures { result ≡ number_array [] (number ∷ []) }
    {
        Constant {
            storage: ConstantStorage::Number(number),
        }
    }

    /// The array. That of a single number is made now, and any other is shared.
    pub fn array(&self, alloc: Global) -> Result<Rc<Array>, AllocError>
        ensures { IfOk result (λ array. array.value ≡ self.now) }
    {
        match &self.storage {
            ConstantStorage::Number(number) => {
                let array = scalar(alloc, *number)?;
                Ok(Rc::new(alloc, array)?)
            }
            ConstantStorage::Shared(array) => Ok(array.clone()?),
        }
    }
}

/// A function's symbol, under the name of its glyph.
#[derive(Clone, Copy, Debug, PartialEq, Eq, Drop)]
pub enum Glyph {
    Scalar(ScalarFunction),
    Rho,
    Comma,
    Iota,
    Epsilon,
    UpArrow,
    DownArrow,
    CircleStile,
    CircleBar,
    Transpose,
    GradeUp,
    GradeDown,
    Slash,
    SlashBar,
    Backslash,
    BackslashBar,
    UpTack,
    DownTack,
}

/// What a token is.
#[derive(Drop)]
pub enum TokenKind {
    Constant(Constant),
    Name(Name),
    Function(Glyph),
    Dot,
    Jot,
    Arrow,
    OpenParen,
    CloseParen,
    OpenBracket,
    CloseBracket,
    Semicolon,
}

/// What a token is, and the column of its first character. Columns count characters from 0.
#[derive(Drop)]
pub struct Token {
    pub kind: TokenKind,
    pub column: usize,
}
