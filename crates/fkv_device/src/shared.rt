//! The bytes of a page, shared by all who hold it.
ghost use Rattle.std.specs.Prelude.{◌≡◌, ℕ, List, IfOk, IfErr};
ghost use Rattle.std.specs.Arc.{arc_value};
ghost use Rattle.fkv_functions.specs.declared.refusals.Refused.TheVariants as refused;

use fkv_functions::Refused;
use std::alloc::Global;
use std::marker::Model;
use std::sync::Arc;

/// The bytes of a page. They are written once, and another that holds them costs no copy. A contract sees them as a list.
#[derive(Drop)]
pub struct Page {
    shared: Arc<Vec<u8>>,
}

impl Model for Page {
    ghost Value = { List ℕ };

    ghost view = { λ p. (arc_value p.shared).items };
}

impl Page {
    /// A page of these bytes, which may be shared from now on.
    ///
    /// # Errors
    ///
    /// `NoMemory`.
    pub fn new(alloc: Global, bytes: Vec<u8>) -> Result<Page, Refused>
        ensures ok { IfOk result (λ page. page ≡ bytes.items) }
        ensures memory { IfErr result (λ e. e ≡ refused.NoMemory) }
    {
        match Arc::new(alloc, bytes) {
            Ok(shared) => Ok(Page { shared }),
            Err(_) => Err(Refused::NoMemory),
        }
    }

    /// A page of a copy of these bytes.
    ///
    /// # Errors
    ///
    /// `NoMemory`.
    pub fn copy_of(alloc: Global, bytes: &[u8]) -> Result<Page, Refused>
        ensures ok { IfOk result (λ page. page ≡ bytes.now) }
        ensures memory { IfErr result (λ e. e ≡ refused.NoMemory) }
    {
        match bytes.to_vec(alloc) {
            Ok(copy) => Page::new(alloc, copy),
            Err(_) => Err(Refused::NoMemory),
        }
    }

    /// The bytes.
    pub fn bytes(&self) -> &[u8]
        ensures { result.now ≡ self.now }
    {
        let bytes: &Vec<u8> = &self.shared;
        bytes.as_slice()
    }

    /// The same page, held once more.
    ///
    /// # Errors
    ///
    /// `NoMemory` where the page can't be shared once more.
    pub fn again(&self) -> Result<Page, Refused>
        ensures same { IfOk result (λ page. page ≡ self.now) }
        ensures memory { IfErr result (λ e. e ≡ refused.NoMemory) }
    {
        match self.shared.clone() {
            Ok(shared) => Ok(Page { shared }),
            Err(_) => Err(Refused::NoMemory),
        }
    }

    /// What holds the bytes.
    pub(crate) fn into_shared(self) -> Arc<Vec<u8>>
        ensures { (arc_value result).items ≡ self }
    {
        let Page { shared } = self;
        shared
    }

    /// A page of bytes that may be held by others.
    pub(crate) fn of(shared: Arc<Vec<u8>>) -> Page
        ensures { result ≡ (arc_value shared).items }
    {
        Page { shared }
    }
}
