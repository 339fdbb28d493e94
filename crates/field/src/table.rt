// A field as a value, and its products in a table.

ghost use Rattle.std.specs.Prelude.{◌≡◌, ◌*◌, ◌/◌, ◌^◌, ◌<◌};
ghost use Rattle.std.proofs.Props.{props};
ghost use Rattle.field.specs.Polynomial.{Modulus, degree, rem, product, inverse, xor_count, Products};
ghost use Rattle.field.specs.Faults.{is_too_large};

// A field: that of an irreducible polynomial of degree 2 to 8.
#[derive(Clone, Copy)]
pub struct Field {
    pub polynomial: u16,
    ghost modulus: { Modulus polynomial },
}

impl Field {
    // The degree of the polynomial.
    pub fn degree(self) -> u16
        ensures { result ≡ degree self.polynomial }
    {
        crate::degree(self.polynomial)
    }

    // How many elements it has.
    pub fn size(self) -> usize
        ensures { result ≡ 2 ^ degree self.polynomial }
    {
        1usize << self.degree()
    }

    // ---- the product in the steps of FIPS 197 (2001), section 4.2.1, with the polynomial in the place of the standard's m(x)

    // Multiplication by x, the second paragraph's xtime(): "a left shift and a subsequent conditional bitwise XOR".
    fn double(self, x: u16) -> u16
        requires { x < 2 ^ degree self.polynomial }
        ensures { result ≡ rem self.polynomial (x * 2) }
    {
        // "If b7 = 1", second paragraph: the highest bit of an element, which the shift moves to the place of the degree.
        let reached = x >> (self.degree() - 1) & 1;
        // "subtracting (i.e., XORing) the polynomial", second paragraph: all of it, since no bit is shifted out.
        x << 1 ^ reached * self.polynomial
    }

    // The product of an element and a byte: a is doubled again and again, and the values that the bits of b select are added, the lowest
    // bit first.
    pub fn product(self, a: u8, b: u8) -> u8
        requires { a < 2 ^ degree self.polynomial }
        ensures { result ≡ product self.polynomial a b }
    {
        let mut doubled = a as u16;
        let mut bits = b as u16;
        // The example's {01}, third paragraph: a itself, where the lowest bit is set.
        let mut sum = (bits & 1) * doubled;
        while 1 < bits {
            // "repeated application of xtime()", second paragraph.
            doubled = self.double(doubled);
            bits >>= 1;
            // "By adding intermediate results", second paragraph.
            sum ^= (bits & 1) * doubled;
        }
        sum as u8
    }

    // ---- products by half and by table

    // The product of a and b from that of a and half of b: doubled, and a is added where b is odd.
    fn product_by_half(self, a: u8, b: u8, half: u8) -> u8
        requires { (a < 2 ^ degree self.polynomial) × (half ≡ product self.polynomial a (b / 2)) }
        ensures { result ≡ product self.polynomial a b }
    {
        let twice = self.double(half as u16);
        (twice ^ (b as u16 & 1) * a as u16) as u8
    }

    // Fills the table of all products: a times b at place a·256 + b, for every element a and every byte b; 0 behind them. The table is lent, and
    // this is not inlined, so that a call has one table on its stack and no more.
    #[inline(never)]
    pub fn fill_products(self, products: &mut [u8; 65536])
        ensures { Products self.polynomial products.new }
    {
        products.fill(0);
        let end: usize = 256 << self.degree();
        for i in 0..end {
            let half = products[i - i % 256 + i % 256 / 2];
            products[i] = self.product_by_half((i / 256) as u8, (i % 256) as u8, half);
        }
    }

    // ---- inverses and counts

    // The element whose product with a is 1.
    pub fn inverse(self, a: u8) -> u8
        requires { (0 < a) × (a < 2 ^ degree self.polynomial) }
        ensures { result ≡ inverse self.polynomial a }
    {
        for b in 0..=u8::MAX {
            if self.product(a, b) == 1 {
                return b;
            }
        }
        unreachable!()
    }

    // The XOR count of an element: the ones in the columns of its bit matrix, less the degree; 0 for 0.
    pub fn xor_count(self, a: u8) -> u16
        requires { a < 2 ^ degree self.polynomial }
        ensures { result ≡ xor_count self.polynomial a }
    {
        if a == 0 {
            return 0;
        }
        let m = self.degree();
        let mut column = a as u16;
        let mut ones: u16 = 0;
        for j in 0..m {
            ones += column.count_ones() as u16;
            column = self.double(column);
        }
        ones - m
    }

    // Whether the value is 2^m or more, m the degree.
    pub fn too_large(self, a: u32) -> bool
        ensures { result ≡ is_too_large self.polynomial a }
    {
        1 << self.degree() <= a
    }
}

// The table of all products over a polynomial, to look them up.
#[derive(Clone, Copy)]
pub struct Table<'a> {
    pub polynomial: u16,
    pub products: &'a [u8; 65536],
    ghost modulus: { Modulus polynomial },
    ghost holds: { Products polynomial products.now } by { unfold Products in Prim.hlevel props },
}

impl<'a> Table<'a> {
    // The field.
    pub fn field(&self) -> Field
        ensures { result.polynomial ≡ self.now.polynomial }
    {
        Field {
            polynomial: self.polynomial,
        }
    }

    // The product of an element and a byte, looked up.
    pub fn times(&self, a: u8, b: u8) -> u8
        requires { a < 2 ^ degree self.now.polynomial }
        ensures { result ≡ product self.now.polynomial a b }
    {
        crate::times(self.polynomial, self.products, a, b)
    }
}
