//! Sources whose windows the tests fill.

/// The examples, without their comments.
pub(crate) const EXAMPLES: [&[u8]; 12] = [
    // divides_by_zero.c
    b"int main(void) { int divisor = 3; while (1) { print(divisor); divisor--; print(12 / \
        divisor); } }",
    // dot_product.c
    b"int main(void) { int a[100]; int b[100]; int i; int sum = 0; for (i = 0; i < 100; i++) { \
        a[i] = i; b[i] = i + 1; } for (i = 0; i < 100; i++) sum += a[i] * b[i]; print(sum); \
        return 0; }",
    // filter.c
    b"int main(void) { int signal[48]; int taps[4]; int i; int k; for (i = 0; i < 48; i++) \
        signal[i] = i < 16 ? (i == 4) * 100 : i < 32 ? 10 : i - 31; taps[0] = 1; taps[1] = 3; \
        taps[2] = 3; taps[3] = 1; for (i = 3; i < 48; i++) { int sum = 0; for (k = 0; k < 4; \
        k++) sum += taps[k] * signal[i - k]; print(sum >> 3); } return 0; }",
    // histogram.c
    b"int main(void) { int counts[10]; int left = read(); int i; for (i = 0; i < 10; i++) \
        counts[i] = 0; while (left > 0) { int digit = read() % 10; counts[digit < 0 ? -digit : \
        digit]++; left--; } for (i = 0; i < 10; i++) print(counts[i]); return 0; }",
    // matrix_product.c
    b"int main(void) { int a[64]; int b[64]; int c[64]; int row; int column; int k; int trace \
        = 0; for (row = 0; row < 8; row++) for (column = 0; column < 8; column++) { a[8 * row + \
        column] = row + 2 * column; b[8 * row + column] = row - column; } for (row = 0; row < 8; \
        row++) for (column = 0; column < 8; column++) { int sum = 0; for (k = 0; k < 8; k++) sum \
        += a[8 * row + k] * b[8 * k + column]; c[8 * row + column] = sum; } for (row = 0; row < \
        8; row++) trace += c[9 * row]; print(trace); for (column = 0; column < 8; column++) \
        print(c[56 + column]); return 0; }",
    // nothing.c
    b"int main(void){}",
    // numbers.c
    b"int main(void){print(0);print(1);print(1);print(2);print(3);print(5);print(2147483647);}",
    // out_of_bounds.c
    b"int main(void) { int squares[4]; int i; for (i = 0; i < 5; i++) { squares[i] = i * i; \
        print(squares[i]); } return 0; }",
    // prefix_sum.c
    b"int main(void) { int sums[1000]; int count = read(); int i; if (count > 1000) count = \
        1000; for (i = 0; i < count; i++) sums[i] = read(); for (i = 1; i < count; i++) sums[i] \
        += sums[i - 1]; for (i = 0; i < count; i++) print(sums[i]); return 0; }",
    // recurrence.c
    b"int main(void) { int state = 12345; int i; int low = 2147483647; int high = -2147483647 \
        - 1; for (i = 0; i < 1000; i++) { state = state * 1103515245 + 12345; low = state < low \
        ? state : low; high = state > high ? state : high; } print(state); print(low); \
        print(high); return 0; }",
    // running_mean.c
    b"int main(void) { int sum = 0; int count = 0; while (1) { sum += read(); count++; \
        print(sum / count); } }",
    // seven.c
    b"int main(void){print(7);}",
];

/// Small programs, of which each shows something of the language.
pub(crate) const PROGRAMS: [&[u8]; 16] = [
    b"int main(void){print(2147483647+1);print((-2147483647-1)/-1);print(-7/2);print(-7%2);}",
    b"int main(void){int a[4];print(1);a[4]=read();}",
    b"int main(void){\nprint(1);print(5/0);\nprint(2);}",
    b"int main(void){int a[100];int b[100];int i;int s=0;\n\
            for(i=0;i<100;i++){a[i]=i;b[i]=i+1;}\nfor(i=0;i<100;i++)s=s+a[i]*b[i];\nprint(s);return 0;}",
    b"int main(void){int a[51];int i;a[0]=3;for(i=0;i<50;i++)a[i+1]=a[i]+1;print(a[50]);}",
    b"int main(void){int a[64];int i;for(i=0;i<64;i++)a[i]=i;\
            for(i=0;i<32;i++)a[2*i]=a[2*i+1];print(a[0]);print(a[62]);}",
    b"int main(void){int a[4];int i;int n=4;int s=0;for(i=0;i<8;i++){if(i<n)s=s+a[i]+1;}print(s);}",
    b"int main(void){int i;int t;int x=1;int y=2;\nfor(i=0;i<5;i++){t=x;x=y;y=t;print(x);}}",
    b"int main(void){int i;int x=1;int y=2;int t;\
            for(i=0;i<5;i++){if(i!=2){t=x;x=y;y=t;}print(x);}}",
    b"int main(void){int a=read();int b=read();if(a)if(b)print(1);else print(2);}",
    b"#include <stdio.h>\n/* x */ int main(void){print(0x10);print(010);return 0;} // end",
    b"int main(void){print(read());print(read());print(read());}",
    b"int main(void){int i;for(i=0;i<4;i++){if(i==1)continue;print(i);}\
            do{i++;if(i<6)continue;break;}while(1);print(i);}",
    b"int main(void){int x=5;int a[2];a[1]=7;print(x>read()&&a[x-4]>6||read());print(0&&read());\
            print(x<0?read():x<<33);}",
    b"int main(void){int i=0;while(i<3){int j=3;while(j){j-=1;if(j==i)break;}print(j*10+i);i+=1;}}",
    b"int main(void){while(1){}}",
];
