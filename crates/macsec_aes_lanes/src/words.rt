//! The S-box on words: the circuit of `tower`, on words of planes in place of whole planes. Its gates are in an order
//! of their own, for which the compiler keeps few planes in memory.

ghost use Rattle.std.specs.Prelude.{◌≡◌, ℕ, ◌^◌, ◌<◌};
ghost use Rattle.macsec_aes.specs.Field.{s_box};
ghost use Rattle.macsec_aes_lanes.specs.AffineConstant.{plus_constant};
ghost use Rattle.macsec_aes_lanes.specs.Planes.{octet};
ghost use Rattle.macsec_aes_lanes.specs.Words.{element_of};
ghost use Rattle.macsec_aes_lanes.specs.Tower.{nibble_inverse, norm, sums};

/// The sums of bits of each byte x, and x^17. The sums are the second factors of the nine products, their first
/// factors, and four sums that are added to products.
#[inline(always)]
fn sums_and_norm(x: [u64; 8]) -> ([u64; 22], [u64; 4])
    ensures sums { (k : ℕ) → k < 64 → element_of 22 result.0 k ≡ sums (element_of 8 x k) }
    ensures norm { (k : ℕ) → k < 64 → element_of 4 result.1 k ≡ norm (element_of 8 x k) }
{
    let [x7, x6, x5, x4, x3, x2, x1, x0] = x;
    let y14 = x3 ^ x5;
    let y9 = x0 ^ x3;
    let y13 = x0 ^ x6;
    let t0 = x1 ^ x2;
    let y1 = t0 ^ x7;
    let y4 = y1 ^ x3;
    let y12 = y13 ^ y14;
    let t1 = x4 ^ y12;
    let y8 = x0 ^ x5;
    let y15 = t1 ^ x5;
    let t2 = y12 & y15;
    let t5 = y4 & x7;
    let y20 = t1 ^ x1;
    let y11 = y20 ^ y9;
    let y2 = y1 ^ x0;
    let y10 = y15 ^ t0;
    let y5 = y1 ^ x6;
    let y17 = y10 ^ y11;
    let y6 = y15 ^ x7;
    let y3 = y5 ^ y8;
    let y7 = x7 ^ y11;
    let y16 = t0 ^ y11;
    let t3 = y3 & y6;
    let t4 = t3 ^ t2;
    let t8 = y5 & y1;
    let t13 = y14 & y17;
    let t12 = y9 & y11;
    let y18 = x0 ^ y16;
    let t7 = y13 & y16;
    let t6 = t5 ^ t2;
    let y21 = y13 ^ y16;
    let t9 = t8 ^ t7;
    let t14 = t13 ^ t12;
    let t19 = t9 ^ t14;
    let t15 = y8 & y10;
    let y19 = y10 ^ y8;
    let t16 = t15 ^ t12;
    let t18 = t6 ^ t16;
    let t17 = t4 ^ t14;
    let t22 = t18 ^ y19;
    let t21 = t17 ^ y20;
    let t10 = y2 & y7;
    let t11 = t10 ^ t7;
    let t23 = t19 ^ y21;
    let t20 = t11 ^ t16;
    let t24 = t20 ^ y18;
    let sums = [
        y15, y6, x7, y16, y1, y7, y11, y17, y10, y12, y3, y4, y13, y5, y2, y9, y14, y8, y20, y19,
        y21, y18,
    ];
    (sums, [t21, t22, t23, t24])
}

/// The inverse of each nibble.
#[inline(always)]
fn inverse(n: [u64; 4]) -> [u64; 4]
    ensures { (k : ℕ) → k < 64 → element_of 4 result k ≡ nibble_inverse (element_of 4 n k) }
{
    let [t21, t22, t23, t24] = n;
    let t26 = t21 & t23;
    let t30 = t23 ^ t24;
    let t31 = t22 ^ t26;
    let t32 = t31 & t30;
    let t33 = t32 ^ t24;
    let t27 = t24 ^ t26;
    let t35 = t27 ^ t33;
    let t36 = t24 & t35;
    let t25 = t21 ^ t22;
    let t34 = t23 ^ t33;
    let t37 = t36 ^ t34;
    let t28 = t25 & t27;
    let t38 = t27 ^ t36;
    let t29 = t28 ^ t22;
    let t39 = t29 & t38;
    let t40 = t25 ^ t39;
    [t37, t33, t40, t29]
}

/// The affine transformation (FIPS 197, 5.1.1) of the inverse of each byte x, without the constant, from the 18
/// products of the sums of x and the sums of the inverse of x^17. For the constant the circuit complements r1, r2, r6
/// and r7.
#[inline(always)]
fn linear_of_products(s: [u64; 22], n: [u64; 4]) -> [u64; 8]
    ensures { (k : ℕ) → k < 64 → (x : ℕ) → x < 2 ^ 8 → element_of 22 s k ≡ sums x
        → element_of 4 n k ≡ nibble_inverse (norm x) → element_of 8 result k ≡ plus_constant (s_box x) }
{
    let [y15, y6, x7, y16, y1, y7, y11, y17, y10, ..] = s;
    let [.., y12, y3, y4, y13, y5, y2, y9, y14, y8, _, _, _, _] = s;
    let [t37, t33, t40, t29] = n;
    let t44 = t33 ^ t37;
    let z2 = t33 & x7;
    let t42 = t29 ^ t33;
    let z1 = t37 & y6;
    let z0 = t44 & y15;
    let z4 = t40 & y1;
    let z14 = t29 & y2;
    let z5 = t29 & y7;
    let z9 = t44 & y12;
    let t49 = z0 ^ z2;
    let t50 = z1 ^ z0;
    let t43 = t29 ^ t40;
    let z3 = t43 & y16;
    let t51 = z3 ^ z4;
    let z10 = t37 & y3;
    let t41 = t40 ^ t37;
    let z12 = t43 & y13;
    let t56 = t51 ^ t50;
    let t52 = z12 ^ t49;
    let t57 = z3 ^ z5;
    let t45 = t42 ^ t41;
    let t59 = t49 ^ t57;
    let z13 = t40 & y5;
    let z7 = t45 & y17;
    let z15 = t42 & y9;
    let t53 = z7 ^ t51;
    let z16 = t45 & y14;
    let z17 = t41 & y8;
    let z8 = t41 & y10;
    let z11 = t33 & y4;
    let t46 = z15 ^ z16;
    let z6 = t42 & y11;
    let t54 = z8 ^ t52;
    let t55 = t53 ^ t54;
    let t61 = z14 ^ t55;
    let t58 = z13 ^ t46;
    let t60 = z6 ^ t53;
    let t63 = z15 ^ t60;
    let t47 = z10 ^ t46;
    let t62 = t58 ^ t59;
    let t48 = z9 ^ t47;
    let t64 = t47 ^ z11;
    let r5 = t64 ^ t61;
    let t65 = t61 ^ t63;
    let r3 = t48 ^ t56;
    let r6 = t55 ^ t62;
    let r1 = r3 ^ t60;
    let r7 = z12 ^ t62;
    let r4 = t59 ^ r3;
    let r0 = t48 ^ t60;
    let r2 = t65 ^ z17;
    [r7, r6, r5, r4, r3, r2, r1, r0]
}

/// The S-box of each byte, without the constant of its affine transformation.
#[inline(always)]
pub fn s_box_but_constant(x: [u64; 8]) -> [u64; 8]
    ensures { (k : ℕ) → k < 64 → element_of 8 result k ≡ plus_constant (s_box (element_of 8 x k)) }
{
    let (sums, norm) = sums_and_norm(x);
    linear_of_products(sums, inverse(norm))
}

/// SubBytes of eight planes of four words, without the constant. The words of a plane are independent of each other, so
/// the compiler can make vectors of as many as the processor takes at a time.
#[inline(always)]
pub fn sub_bytes_but_constant(from: &[[u64; 4]; 8]) -> [[u64; 4]; 8]
    ensures { (l : ℕ) → l < 4 → (k : ℕ) → k < 64 → octet result l k ≡ plus_constant (s_box (octet from.now l k)) }
{
    let mut to0 = [0; 4];
    let mut to1 = [0; 4];
    let mut to2 = [0; 4];
    let mut to3 = [0; 4];
    let mut to4 = [0; 4];
    let mut to5 = [0; 4];
    let mut to6 = [0; 4];
    let mut to7 = [0; 4];
    for l in 0..4usize {
        let s = s_box_but_constant([
            from[0][l], from[1][l], from[2][l], from[3][l], from[4][l], from[5][l], from[6][l],
            from[7][l],
        ]);
        to0[l] = s[0];
        to1[l] = s[1];
        to2[l] = s[2];
        to3[l] = s[3];
        to4[l] = s[4];
        to5[l] = s[5];
        to6[l] = s[6];
        to7[l] = s[7];
    }
    [to0, to1, to2, to3, to4, to5, to6, to7]
}
