// The constants of Frobenius.
use quintic::quintuple::Quintuple;

// Four elements T1 to T4 of the extension, T_k being the k-th power of T1.
#[derive(Clone, Copy)]
pub struct Rows<S> {
    pub t1: Quintuple<S>,
    pub t2: Quintuple<S>,
    pub t3: Quintuple<S>,
    pub t4: Quintuple<S>,
}
