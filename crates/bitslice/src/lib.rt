// The S-box of AES and its inverse as Boolean circuits (Boyar and Peralta 2010), on 32 bytes at a time: word i of eight has bit i of
// each byte. The two share what lies between their linear layers, the inversion. The gates of a layer stand in an order that keeps
// few values alive.
// (constant and products are written out, element by element: they are wiring, and no rule over an index says which input a gate has.)
#![tactic(auto)]

ghost use Rattle.std.specs.Prelude.{◌≡◌};
ghost use Rattle.bitslice.specs.Circuit.{first_inputs_of, second_inputs_of, norm_of, inversion_of, products_of, outputs_of};
ghost use Rattle.bitslice.specs.Circuit.{inv_first_inputs_of, inv_second_inputs_of, inv_outputs_of, constant_of, sbox_of, inv_sbox_of};
ghost use Rattle.bitslice.specs.Words.{ones};

// The sum of each byte with 0x63, the constant of the affine map (5.1.1).
fn constant(q: [u32; 8]) -> [u32; 8]
    ensures { result ≡ constant_of ones q }
{
    let one = 4294967295u32;
    [
        q[0] ^ one,
        q[1] ^ one,
        q[2],
        q[3],
        q[4],
        q[5] ^ one,
        q[6] ^ one,
        q[7],
    ]
}

// Ten of the inputs of the products.
fn first_inputs(q: [u32; 8]) -> [u32; 10]
    ensures { result ≡ first_inputs_of q }
{
    let y14 = q[4] ^ q[2];
    let t0 = q[6] ^ q[5];
    let y1 = t0 ^ q[0];
    let y13 = q[7] ^ q[1];
    let y9 = q[7] ^ q[4];
    let y8 = q[7] ^ q[2];
    let y4 = y1 ^ q[4];
    let y12 = y13 ^ y14;
    let y5 = y1 ^ q[1];
    let y2 = y1 ^ q[7];
    let y3 = y5 ^ y8;
    [y1, y2, y3, y4, y5, y8, y9, y12, y13, y14]
}

// The other twelve inputs of the products, a being the first ten.
fn second_inputs(q: [u32; 8], a: [u32; 10]) -> [u32; 12]
    ensures { result ≡ second_inputs_of q a }
{
    let t1 = q[3] ^ a[7];
    let y20 = t1 ^ q[6];
    let y15 = t1 ^ q[2];
    let y11 = y20 ^ a[6];
    let t0 = q[6] ^ q[5];
    let y7 = q[0] ^ y11;
    let y6 = y15 ^ q[0];
    let y16 = t0 ^ y11;
    let y10 = y15 ^ t0;
    let y19 = y10 ^ a[5];
    let y21 = a[8] ^ y16;
    let y17 = y10 ^ y11;
    let y18 = q[7] ^ y16;
    [q[0], y6, y7, y10, y11, y15, y16, y17, y18, y19, y20, y21]
}

// The element of the field of sixteen elements that is to be inverted.
fn norm(a: [u32; 10], b: [u32; 12]) -> [u32; 4]
    ensures { result ≡ norm_of a b }
{
    let t13 = a[9] & b[7];
    let t15 = a[5] & b[3];
    let t12 = a[6] & b[4];
    let t8 = a[4] & a[0];
    let t14 = t13 ^ t12;
    let t16 = t15 ^ t12;
    let t5 = a[3] & b[0];
    let t3 = a[2] & b[1];
    let t2 = a[7] & b[5];
    let t7 = a[8] & b[6];
    let t6 = t5 ^ t2;
    let t9 = t8 ^ t7;
    let t10 = a[1] & b[2];
    let t18 = t6 ^ t16;
    let t4 = t3 ^ t2;
    let t11 = t10 ^ t7;
    let t22 = t18 ^ b[9];
    let t19 = t9 ^ t14;
    let t23 = t19 ^ b[11];
    let t17 = t4 ^ t14;
    let t20 = t11 ^ t16;
    let t24 = t20 ^ b[8];
    let t21 = t17 ^ b[10];
    [t21, t22, t23, t24]
}

// The inversion in the field of sixteen elements.
fn inversion(t: [u32; 4]) -> [u32; 4]
    ensures { result ≡ inversion_of t }
{
    let t26 = t[0] & t[2];
    let t25 = t[0] ^ t[1];
    let t27 = t[3] ^ t26;
    let t30 = t[2] ^ t[3];
    let t31 = t[1] ^ t26;
    let t32 = t31 & t30;
    let t28 = t25 & t27;
    let t33 = t32 ^ t[3];
    let t34 = t[2] ^ t33;
    let t29 = t28 ^ t[1];
    let t35 = t27 ^ t33;
    let t36 = t[3] & t35;
    let t38 = t27 ^ t36;
    let t37 = t36 ^ t34;
    let t39 = t29 & t38;
    let t40 = t25 ^ t39;
    [t29, t33, t37, t40]
}

// The products with the inverse u.
fn products(a: [u32; 10], b: [u32; 12], u: [u32; 4]) -> [u32; 18]
    ensures { result ≡ products_of a b u }
{
    let t42 = u[0] ^ u[1];
    let t43 = u[0] ^ u[3];
    let t41 = u[3] ^ u[2];
    let t44 = u[1] ^ u[2];
    let t45 = t42 ^ t41;
    [
        t44 & b[5],
        u[2] & b[1],
        u[1] & b[0],
        t43 & b[6],
        u[3] & a[0],
        u[0] & b[2],
        t42 & b[4],
        t45 & b[7],
        t41 & b[3],
        t44 & a[7],
        u[2] & a[2],
        u[1] & a[3],
        t43 & a[8],
        u[3] & a[4],
        u[0] & a[1],
        t42 & a[6],
        t45 & a[9],
        t41 & a[5],
    ]
}

// The sums of the products: the affine map (5.1.1) without its constant.
fn outputs(z: [u32; 18]) -> [u32; 8]
    ensures { result ≡ outputs_of z }
{
    let t46 = z[15] ^ z[16];
    let t58 = z[4] ^ t46;
    let t54 = z[6] ^ z[7];
    let t50 = z[2] ^ z[12];
    let t51 = z[2] ^ z[5];
    let t48 = z[5] ^ z[13];
    let t59 = z[3] ^ t54;
    let t64 = z[4] ^ t59;
    let t49 = z[9] ^ z[10];
    let t56 = z[12] ^ t48;
    let t63 = t49 ^ t58;
    let t53 = z[0] ^ z[3];
    let t57 = t50 ^ t53;
    let t52 = z[7] ^ z[8];
    let t61 = z[14] ^ t57;
    let t60 = t46 ^ t57;
    let s7 = t48 ^ t60;
    let t62 = t52 ^ t58;
    let t55 = z[16] ^ z[17];
    let s0 = t59 ^ t63;
    let t65 = t61 ^ t62;
    let t66 = z[1] ^ t63;
    let t47 = z[10] ^ z[11];
    let t67 = t64 ^ t65;
    let s3 = t53 ^ t66;
    let s1 = t64 ^ s3;
    let s6 = t56 ^ t62;
    let s2 = t55 ^ t67;
    let s4 = t51 ^ t66;
    let s5 = t47 ^ t65;
    [s7, s6, s5, s4, s3, s2, s1, s0]
}

// For the inverse: ten of the inputs of the products.
fn inv_first_inputs(q: [u32; 8]) -> [u32; 10]
    ensures { result ≡ inv_first_inputs_of q }
{
    let y9 = q[3] ^ q[4];
    let y5 = q[4] ^ q[6];
    let y1 = q[0] ^ y9;
    let y3 = q[4] ^ q[7];
    let y13 = q[1] ^ y1;
    let y8 = q[6] ^ q[7];
    let y14 = y8 ^ y9;
    let y12 = y14 ^ y13;
    let y4 = y3 ^ y12;
    let y2 = y5 ^ y13;
    [y1, y2, y3, y4, y5, y8, y9, y12, y13, y14]
}

// For the inverse: the other twelve inputs of the products, a being the first ten.
fn inv_second_inputs(q: [u32; 8], a: [u32; 10]) -> [u32; 12]
    ensures { result ≡ inv_second_inputs_of q a }
{
    let h0 = q[2] ^ q[7];
    let y6 = q[4] ^ a[5];
    let y19 = q[0] ^ q[3];
    let y18 = q[5] ^ a[6];
    let w7 = q[5] ^ h0;
    let y20 = a[1] ^ h0;
    let y7 = y18 ^ a[1];
    let y15 = y6 ^ w7;
    let y16 = a[0] ^ y7;
    let y11 = a[6] ^ y20;
    let y10 = a[0] ^ y6;
    let y21 = q[1] ^ y7;
    let y17 = y10 ^ y11;
    [w7, y6, y7, y10, y11, y15, y16, y17, y18, y19, y20, y21]
}

// For the inverse: the sums of the products.
fn inv_outputs(z: [u32; 18]) -> [u32; 8]
    ensures { result ≡ inv_outputs_of z }
{
    let g0 = z[16] ^ z[13];
    let g13 = z[4] ^ z[3];
    let g10 = z[10] ^ z[13];
    let g1 = z[12] ^ g0;
    let g4 = z[5] ^ z[3];
    let g2 = z[15] ^ g1;
    let g3 = z[6] ^ g2;
    let g7 = z[0] ^ g4;
    let g8 = z[17] ^ g1;
    let g5 = z[8] ^ g3;
    let g16 = z[7] ^ g3;
    let g9 = z[2] ^ g7;
    let g18 = z[1] ^ g5;
    let s0 = g4 ^ g5;
    let g19 = g7 ^ g13;
    let g11 = z[11] ^ g9;
    let g14 = z[9] ^ g8;
    let s6 = g13 ^ g16;
    let g15 = z[11] ^ g14;
    let g12 = g10 ^ g11;
    let g24 = z[12] ^ g8;
    let s3 = s0 ^ g9;
    let s5 = g18 ^ g19;
    let s7 = g2 ^ g15;
    let g21 = z[14] ^ g12;
    let s2 = s5 ^ g21;
    let g25 = g12 ^ s6;
    let s4 = g24 ^ g25;
    let s1 = g15 ^ s2;
    [s7, s6, s5, s4, s3, s2, s1, s0]
}

// SBOX (5.1.1) of the byte in each of the 32 bit positions.
pub fn sbox(q: [u32; 8]) -> [u32; 8]
    ensures { result ≡ sbox_of ones q }
{
    let a = first_inputs(q);
    let b = second_inputs(q, a);
    constant(outputs(products(a, b, inversion(norm(a, b)))))
}

// INVSBOX (5.3.2) of the byte in each of the 32 bit positions.
pub fn inv_sbox(q: [u32; 8]) -> [u32; 8]
    ensures { result ≡ inv_sbox_of ones q }
{
    let c = constant(q);
    let a = inv_first_inputs(c);
    let b = inv_second_inputs(c, a);
    inv_outputs(products(a, b, inversion(norm(a, b))))
}
