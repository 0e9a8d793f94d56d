// Elements of extensions from lists of bytes, and as such: the list is cut into equal parts for the layer below, one for each coefficient.
ghost use Rattle.std.specs.Prelude.{suc};
ghost use Rattle.encoding.specs.NarrowLemmas.{extension_narrow};

use crate::encoded::Encoded;
use extensions::coefficients::Coefficients;
use extensions::element::Element;
use extensions::rule::Rule;
use numbers::refusal::Refusal;
use numbers::system::System;

impl<S: Encoded, V: Coefficients<S>, R: Rule<V, S>> Encoded for Element<S, V, R> {
    ghost narrow = { extension_narrow V.d S.System.sys (R.product (suc V.d) S.System.sys.Elem S.System.sys.ops S.System.mean) S.narrow };

    fn decode(bytes: &[u8]) -> Result<Element<S, V, R>, Refusal> {
        let degree = V::degree();
        if bytes.len() % degree != 0 {
            return Err(Refusal::CutList);
        }
        // not by `chunks`, which wants parts that are not empty
        let part = bytes.len() / degree;
        let mut res = Self::zero();
        for k in 0..degree {
            let start = k * part;
            res.set_coefficient(k, S::decode(&bytes[start..start + part])?);
        }
        Ok(res)
    }

    fn encode(&self, out: &mut [u8]) -> Result<(), Refusal> {
        let degree = V::degree();
        if out.len() % degree != 0 {
            return Err(Refusal::CutList);
        }
        let part = out.len() / degree;
        // nothing is written before a refusal: all parts are of one length, so that the first is refused or none
        for k in 0..degree {
            let start = k * part;
            self.coefficient(k).encode(&mut out[start..start + part])?;
        }
        Ok(())
    }
}
