//! Types and signatures as texts: items by their full names, and a type parameter as `#` and its place.

use std::alloc::{AllocError, Global};
use std::str;
use th_tree::NameTable;
use th_type::{Sig, Ty, TyList};

/// Whether there was memory for a part of a text.
type Shown = Result<(), AllocError>;

/// A text of types and signatures.
#[derive(Drop)]
pub struct Shower<'a> {
    alloc: Global,
    names: &'a NameTable,
    text: String,
}

impl<'a> Shower<'a> {
    /// The empty text.
    pub fn new(alloc: Global, names: &'a NameTable) -> Self {
        Shower {
            alloc,
            names,
            text: String::new(alloc),
        }
    }

    /// The text.
    pub fn into_text(self) -> String {
        self.text
    }

    /// Appends a text.
    pub fn put(&mut self, text: &str) -> Shown {
        self.text.push_str(text)
    }

    /// Appends a number.
    pub fn number(&mut self, number: u32) -> Shown {
        let digits = number.to_string(self.alloc)?;
        self.put(&digits)
    }

    /// The name with the number.
    pub fn name(&mut self, number: u32) -> Shown {
        match self.names.name(number) {
            Some(name) => match str::from_utf8(name) {
                Ok(name) => self.text.push_str(name),
                Err(_) => self.put("?"),
            },
            None => self.put("?"),
        }
    }

    /// Names, with blanks between them.
    pub fn names(&mut self, numbers: &[u32]) -> Shown {
        let mut before = "";
        for number in numbers {
            self.put(before)?;
            self.name(*number)?;
            before = " ";
        }
        Ok(())
    }

    /// A type.
    #[cycle(types)]
    pub fn ty(&mut self, ty: &Ty) -> Shown {
        match ty {
            Ty::Int => self.put("int"),
            Ty::Bool => self.put("bool"),
            Ty::Text => self.put("string"),
            Ty::Array(of) => {
                self.put("array[")?;
                self.ty(of)?;
                self.put("]")
            }
            Ty::Named(name, TyList::NoTy) => self.name(*name),
            Ty::Named(name, args) => {
                self.name(*name)?;
                self.put("[")?;
                self.types(args)?;
                self.put("]")
            }
            Ty::Param(place) => {
                self.put("#")?;
                self.number(*place)
            }
        }
    }

    /// Types, with commas between them.
    #[cycle(types)]
    pub fn types(&mut self, list: &TyList) -> Shown {
        let mut left = list;
        while let TyList::MoreTy(first, rest) = left {
            self.ty(first)?;
            left = rest;
            if let TyList::MoreTy(..) = left {
                self.put(", ")?;
            }
        }
        Ok(())
    }

    /// What a signature gives.
    fn gives(&mut self, sig: &Sig) -> Shown {
        let Some(gives) = &sig.gives else {
            return Ok(());
        };
        self.put(if sig.iterator {
            " yields ("
        } else {
            " returns ("
        })?;
        self.ty(gives)?;
        self.put(")")
    }

    /// The exceptions of a signature.
    fn signals(&mut self, numbers: &[u32]) -> Shown {
        let mut before = " signals (";
        for number in numbers {
            self.put(before)?;
            self.name(*number)?;
            before = ", ";
        }
        if numbers.is_empty() {
            Ok(())
        } else {
            self.put(")")
        }
    }

    /// A signature.
    pub fn sig(&mut self, sig: &Sig) -> Shown {
        if sig.iterator {
            self.put("iter ")?;
        }
        self.name(sig.method)?;
        self.put("(")?;
        self.types(&sig.formals)?;
        self.put(")")?;
        self.gives(sig)?;
        self.signals(sig.signals.as_slice())
    }

    /// Signatures, with semicolons between them.
    pub fn sigs(&mut self, sigs: &[Sig]) -> Shown {
        if sigs.is_empty() {
            return self.put("none");
        }
        let mut before = "";
        for sig in sigs {
            self.put(before)?;
            self.sig(sig)?;
            before = "; ";
        }
        Ok(())
    }

    /// Types of a slice, with semicolons between them.
    pub fn slice(&mut self, types: &[Ty]) -> Shown {
        if types.is_empty() {
            return self.put("none");
        }
        let mut before = "";
        for ty in types {
            self.put(before)?;
            self.ty(ty)?;
            before = "; ";
        }
        Ok(())
    }
}
