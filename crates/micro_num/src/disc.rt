//! The three lists of a discretionary break, behind one box, so that the rare part that holds them
//! is no larger than the others (TeX: The Program, section 145).
ghost use Rattle.std.specs.Prelude.{◌≡◌, IfOk};

use items::Items;
use std::alloc::{AllocError, Global};
use std::marker::Model;

/// What stands at a discretionary: before a line's end and after it where the line ends there, and
/// where it doesn't.
#[derive(Drop)]
pub struct ThreeLists<T> {
    pub pre: Items<T>,
    pub post: Items<T>,
    pub whole: Items<T>,
}

/// The three lists of a discretionary, which contracts see as the record of them.
#[derive(Drop)]
pub struct Disc<T> {
    lists: Box<ThreeLists<T>>,
}

impl<T> Model for Disc<T> {
    ghost use Rattle.micro_num.specs.declared.disc.ThreeLists.{ThreeLists};

    ghost Value = { ThreeLists T };

    ghost view = { λ disc. disc.lists.value };
}

impl<T: Drop> Disc<T> {
    /// A discretionary of three lists. It takes memory for one box.
    pub fn new(
        alloc: Global,
        pre: Items<T>,
        post: Items<T>,
        whole: Items<T>,
    ) -> Result<Disc<T>, AllocError>
        ensures { IfOk result (λ disc. disc ≡ record { pre = pre; post = post; whole = whole }) }
    {
        let lists = Box::new(alloc, ThreeLists { pre, post, whole })?;
        Ok(Disc { lists })
    }
}

impl<T> Disc<T> {
    /// What ends a line that ends here.
    pub fn pre(&self) -> &[T]
        ensures { result.now ≡ self.now.pre }
    {
        self.lists.pre.as_slice()
    }

    /// What begins the line after one that ends here.
    pub fn post(&self) -> &[T]
        ensures { result.now ≡ self.now.post }
    {
        self.lists.post.as_slice()
    }

    /// What stands here where no line ends.
    pub fn whole(&self) -> &[T]
        ensures { result.now ≡ self.now.whole }
    {
        self.lists.whole.as_slice()
    }
}
